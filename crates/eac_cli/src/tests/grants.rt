// What chips take and grant in scripts: the rights and the day of a chain, and links one by one.
use super::chips::{are, disk_of, run_on};
use super::{CALM, octets};
use crate::tool::Status;
use eac_base::Octets;
use std::alloc::Global;
use std::process::Abort;

// ---- chains

const PARTIES: &[u8] = b"cvca DECVCA ec 03 1096\n\
      dv DEDVBUND\n\
      terminal DETERM1\n\
      register DEDVBUND DETERM1 terminal 01 7 4 bare\n";

// The verifier's certificate takes effect a day after the chip was made, the terminal's a day later.
const CHAIN: &[u8] = b"day 240101\n\
      found DECVCA\n\
      make 0 DECVCA\n\
      trust DEDVBUND DECVCA\n\
      trust DETERM1 DECVCA\n\
      day 240102\n\
      apply DEDVBUND DECVCA DECVCA\n\
      deliver 1\n\
      deliver 2\n\
      push DEDVBUND DETERM1\n\
      deliver 3\n\
      day 240103\n\
      apply DETERM1 DEDVBUND DECVCA\n\
      deliver 5\n\
      deliver 6\n\
      present 0 DETERM1\n\
      look 0\n";

const CHAIN_JOURNAL: &[u8] = b"7: founded DECVCA00001\n\
      8: made DECVCA00001\n\
      9: trusted DECVCA00001\n\
      10: trusted DECVCA00001\n\
      12: packet 1 DEDVBUND00001\n\
      13: issued DEDVBUND00001 reply 2\n\
      14: stored DEDVBUND00001\n\
      15: packet 3\n\
      16: ca held DECVCA00001, ca DEDVBUND00001 reply 4\n\
      18: packet 5 DETERM100001\n\
      19: issued DETERM100001 reply 6\n\
      20: stored DETERM100001\n\
      21: verifier DEDVBUND00001, terminal DETERM100001, grant 01 day ";

// The verifier's registration, and what the journal has behind the word day of its grant.
const ROLES: [(&[u8], &[u8]); 2] = [
    (
        b"register DECVCA DEDVBUND domestic 03 90 3 bare\n",
        b"240103\n22: day 240103 points DECVCA00001 generation 2\n",
    ),
    (
        b"register DECVCA DEDVBUND foreign 03 90 3 bare\n",
        b"240102\n22: day 240102 points DECVCA00001 generation 1\n",
    ),
];

// These pieces, one behind another.
fn joined(rt: &impl Abort, alloc: Global, pieces: &[&[u8]]) -> Octets {
    let mut bytes = Octets::new(alloc);
    for piece in pieces {
        bytes.push_all(piece).expect(rt, "memory is there");
    }
    bytes
}

#[test]
fn a_chain_grants_what_all_have_and_a_domestic_terminal_moves_the_day(rt: HostRuntime) {
    let alloc = rt.alloc();
    for (register, day) in ROLES {
        let script = joined(&rt, alloc, &[PARTIES, register, CHAIN]);
        let journal = joined(&rt, alloc, &[CHAIN_JOURNAL, day]);
        let mut chips = [disk_of(&rt, alloc, &[0; 16_384], None)];
        let report = run_on(
            &rt,
            alloc,
            &CALM,
            script.as_slice(),
            journal.as_slice(),
            &mut chips,
        );
        drop(script);
        drop(journal);
        assert!(rt; report.status == Status::Done && report.done == 17);
        assert!(rt; are(&report.acks, &[(0, 1), (0, 2)]));
        drop(report);
        drop(chips);
    }
}

// ---- links

// Two links of an authority, the first signed with its founding key on 2024-01-02, the second a day later.
pub const TWO_LINKS: &[u8] = b"cvca DECVCA ec 03 1096\n\
      day 240101\n\
      found DECVCA\n\
      make 0 DECVCA\n\
      day 240102\n\
      link DECVCA\n\
      day 240103\n\
      link DECVCA\n";

pub const TWO_LINKS_JOURNAL: &[u8] = b"3: founded DECVCA00001\n\
      4: made DECVCA00001\n\
      6: linked DECVCA00002\n\
      8: linked DECVCA00003\n";

// The import of the certificate DECVCA00002: 183 bytes, signed by DECVCA00001.
pub const FIRST_TO_SECOND: &[u8] =
    b"import 0 7f2181b37f4e6d5f290100420b44454356434130303030317f4928060a04007f00070202020203810101820\
      102830103840104850105860800000000000000028701015f200b44454356434130303030327f4c0e060904007f00070\
      30102015301c35f25060204000100025f24060207000100025f374000000000000000000000000000000000000000000\
      000000000000000000000000000000000000000000000000000000000000000000000000000000000000002\n";

// The import of the certificate DECVCA00003, signed by DECVCA00002.
const SECOND_TO_THIRD: &[u8] =
    b"import 0 7f2181b37f4e6d5f290100420b44454356434130303030327f4928060a04007f00070202020203810101820\
      102830103840104850105860800000000000000038701015f200b44454356434130303030337f4c0e060904007f00070\
      30102015301c35f25060204000100035f24060207000100035f374000000000000000000000000000000000000000000\
      000000000000000000000000000000000000000000000000000000000000000000000000000000000000003\n";

// Links that a chip of the first certificate is given in this order, and its answers.
const GIVEN: [(&[u8], &[u8]); 5] = [
    (SECOND_TO_THIRD, b"9: refused 1\n"),
    (FIRST_TO_SECOND, b"10: link DECVCA00002 day 240102\n"),
    (SECOND_TO_THIRD, b"11: link DECVCA00003 day 240103\n"),
    (SECOND_TO_THIRD, b"12: held DECVCA00003 day 240103\n"),
    (FIRST_TO_SECOND, b"13: refused 1\n"),
];

#[test]
fn a_chip_takes_each_link_once_and_in_order(rt: HostRuntime) {
    let alloc = rt.alloc();
    let mut script = octets(&rt, alloc, TWO_LINKS);
    let mut journal = octets(&rt, alloc, TWO_LINKS_JOURNAL);
    for (line, answer) in GIVEN {
        script.push_all(line).expect(&rt, "memory is there");
        journal.push_all(answer).expect(&rt, "memory is there");
    }
    let look = b"14: day 240103 points DECVCA00002 DECVCA00003 generation 2\n";
    script.push_all(b"look 0\n").expect(&rt, "memory is there");
    journal.push_all(look).expect(&rt, "memory is there");
    let mut chips = [disk_of(&rt, alloc, &[0; 16_384], None)];
    let report = run_on(
        &rt,
        alloc,
        &CALM,
        script.as_slice(),
        journal.as_slice(),
        &mut chips,
    );
    drop(script);
    drop(journal);
    assert!(rt; report.status == Status::Done && report.done == 13);
    assert!(rt; are(&report.acks, &[(0, 2), (0, 3), (0, 4)]));
    drop(report);
    drop(chips);
}
