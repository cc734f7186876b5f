// Plans of worked needs.
use crate::{Planned, RenewalList, plan, read_need};
use cv_dates::day_text;
use eac_base::Octets;
use std::alloc::Global;
use std::process::Abort;
use std::test::Fail;

/// The days of renewals and their last days, each with a space behind it.
fn days_of(alloc: Global, renewals: &RenewalList) -> Result<Octets, Fail> {
    let mut text = Octets::new(alloc);
    for renewal in renewals.as_slice() {
        text.push_all(&day_text(renewal.0))?;
        text.push_all(b" ")?;
        text.push_all(&day_text(renewal.1))?;
        text.push_all(b" ")?;
    }
    Ok(text)
}

/// What is planned for the need of this text: the days, or `bare` and the first day that no plan covers.
fn planned(alloc: Global, text: &[u8]) -> Result<Octets, Fail> {
    let need = read_need(alloc, text)?;
    let planned = plan(alloc, &need)?;
    drop(need);
    match planned {
        Planned::Plan(renewals) => {
            let days = days_of(alloc, &renewals);
            drop(renewals);
            days
        }
        Planned::Uncovered(day) => {
            let mut text = Octets::from_slice(alloc, b"bare ")?;
            text.push_all(&day_text(day))?;
            Ok(text)
        }
    }
}

/// Needs, and what is planned for them.
const WORKED: [(&[u8], &[u8]); 12] = [
    // a closed day between two renewals
    (
        b"need 240101 240131\nterm 14 1\nlive 2\nauthority 240101 240331\nclosed 240116\n",
        b"240101 240115 240115 240129 240130 240213 ",
    ),
    // one certificate at a time: the day after the first one is closed
    (
        b"need 240101 240131\nterm 14 1\nlive 1\nauthority 240101 240331\nclosed 240116\n",
        b"bare 240116",
    ),
    // one certificate at a time, and no closed day
    (
        b"need 240101 240131\nterm 14 1\nlive 1\nauthority 240101 240331\n",
        b"240101 240115 240116 240130 240131 240214 ",
    ),
    // no renewal is needed
    (
        b"need 240101 240131\nterm 14 1\nlive 2\nhave 240131\nauthority 240101 240331\n",
        b"",
    ),
    // what the holder has counts as valid, so that the second one waits until the day after it
    (
        b"need 240101 240112\nterm 14 1\nlive 1\nhave 240105\nauthority 240101 240331\n",
        b"240106 240120 ",
    ),
    // a closed week: the renewal before it covers its days
    (
        b"need 240101 240125\nterm 14 1\nlive 2\nauthority 240101 240331\nclosed 240112\nclosed 240113\nclosed 240114\nclosed 240115\nclosed 240116\nclosed 240117\nclosed 240118\n",
        b"240101 240115 240111 240125 ",
    ),
    // an authority that ends: its last day is the last day of what it certifies
    (
        b"need 240101 240125\nterm 14 1\nlive 2\nauthority 231201 240110\nauthority 240108 240331\n",
        b"240101 240110 240111 240125 ",
    ),
    // an authority that ends, and none after it
    (
        b"need 240101 240125\nterm 14 1\nlive 2\nauthority 231201 240110\n",
        b"bare 240111",
    ),
    // of authorities that began on one day the last in the list, although it is expired
    (
        b"need 240201 240205\nterm 14 1\nlive 2\nauthority 240101 240331\nauthority 240101 240131\n",
        b"bare 240201",
    ),
    // days equal to the minimum: nothing is made that would be cut short, so the second one comes early
    (
        b"need 240101 240120\nterm 14 14\nlive 2\nauthority 240101 240120\n",
        b"240101 240115 240106 240120 ",
    ),
    // no authority
    (b"need 240101 240101\nterm 1 1\nlive 1\n", b"bare 240101"),
    // one day
    (
        b"need 240101 240101\nterm 1 1\nlive 1\nauthority 240101 240131\n",
        b"240101 240102 ",
    ),
];

#[test]
fn worked_needs_have_their_plans(rt: HostRuntime) -> Result<(), Fail> {
    let alloc = rt.alloc();
    for (text, wanted) in WORKED {
        let found = planned(alloc, text)?;
        assert!(rt; found.as_slice() == wanted);
        drop(found);
    }
    Ok(())
}
