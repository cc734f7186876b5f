// Worked examples, and that each call finds memory.
ghost use Rattle.std.specs.Prelude.{IsTrue};
ghost use Rattle.signature_provider.specs.Key.{is_form};

use crate::{
    DigestProvider, FormName, Key, KeyForm, SignRefusal, SignatureProvider, TableProvider,
    plain_form,
};
use eac_base::{FailPlan, Octets};
use std::alloc::Global;
use std::process::Abort;

const MESSAGE: [u8; 3] = [1, 2, 3];

fn form(rt: &impl Abort, alloc: Global, name: FormName) -> KeyForm
    ensures { IsTrue (is_form result) }
{
    plain_form(alloc, name).expect(rt, "memory is there")
}

// Whether the first signature of a new provider's first key is this one, good for the message in every cut and for no
// other message.
fn signs_first<P: SignatureProvider>(
    rt: &impl Abort,
    alloc: Global,
    provider: &mut P,
    expected: &[u8],
) -> bool {
    let key = provider
        .new_key(alloc, &form(rt, alloc, FormName::Ec))
        .expect(rt, "a key is made");
    let signature = provider
        .sign(alloc, &key, &MESSAGE)
        .expect(rt, "the key is held");
    let mut good = true;
    for at in 0..4 {
        let (first, second) = MESSAGE.as_slice().split_at(at);
        let answer = provider.verify(key.view(), first, second, signature.as_slice());
        good = good && answer == Ok(true);
    }
    good && provider.verify(key.view(), &MESSAGE, &[4], signature.as_slice()) == Ok(false)
        && key.point.as_slice() == [0, 0, 0, 0, 0, 0, 0, 1].as_slice()
        && signature.as_slice() == expected
}

#[test]
fn a_table_numbers_its_keys_and_signatures(rt: HostRuntime) {
    let alloc = rt.alloc();
    let mut provider = TableProvider::new(alloc, FailPlan::new(alloc));
    let mut expected = [0; 64];
    expected[63] = 1;
    assert!(rt; signs_first(&rt, alloc, &mut provider, &expected));
    let rsa = provider
        .new_key(alloc, &form(&rt, alloc, FormName::Rsa))
        .expect(&rt, "a key is made");
    assert!(rt;
        rsa.point.as_slice() == b"\x81\x08\x00\x00\x00\x00\x00\x00\x00\x02\x82\x01\x03".as_slice()
    );
}

#[test]
fn a_key_that_was_not_made_is_refused(rt: HostRuntime) {
    let alloc = rt.alloc();
    let mut provider = TableProvider::new(alloc, FailPlan::new(alloc));
    let form = form(&rt, alloc, FormName::Ec);
    let first = provider.new_key(alloc, &form).expect(&rt, "a key is made");
    assert!(rt; provider.sign(alloc, &first, &MESSAGE).is_ok());
    let second = Key {
        algorithm: form.algorithm,
        domain: form.domain,
        point: Octets::from_slice(alloc, &[0, 0, 0, 0, 0, 0, 0, 2]).expect(&rt, "memory is there"),
        cofactor: form.cofactor,
    };
    assert!(rt;
        matches!(
            provider.sign(alloc, &second, &MESSAGE),
            Err(SignRefusal::NoKey)
        )
    );
}

#[test]
fn a_planned_call_fails(rt: HostRuntime) {
    let alloc = rt.alloc();
    let mut plan = FailPlan::new(alloc);
    assert!(rt; plan.push(1).is_ok());
    let mut provider = TableProvider::new(alloc, plan);
    let form = form(&rt, alloc, FormName::Ec);
    assert!(rt; matches!(provider.new_key(alloc, &form), Err(SignRefusal::Failed)));
    assert!(rt; provider.new_key(alloc, &form).is_ok());
}

#[test]
fn a_digest_is_good_for_its_message(rt: HostRuntime) {
    let alloc = rt.alloc();
    let mut provider = DigestProvider::new(alloc, [0; 32]);
    // Of 32 bytes 00, 02 03, 0000000f and the domain, 00000008 and the point, and the message, by another program.
    let expected = [
        0x8d, 0xdf, 0x37, 0x3c, 0x2e, 0x17, 0xa5, 0x24, 0xec, 0x92, 0x6a, 0xe3, 0x3f, 0x89, 0xcb,
        0x7a, 0x0a, 0xd3, 0x30, 0xd7, 0xf3, 0x67, 0xf6, 0xad, 0x41, 0xf9, 0xab, 0x6a, 0x94, 0x5d,
        0x79, 0x12,
    ];
    assert!(rt; signs_first(&rt, alloc, &mut provider, &expected));
}
