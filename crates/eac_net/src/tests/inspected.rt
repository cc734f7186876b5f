// The texts of what chips answer.
use crate::{Answer, Presented, answer_text};
use chip_events::{ImportAnswer, Looked};
use chip_slots::ChipRefusal;
use chip_verify::ImportRefusal;
use cvc_grammar::CvcRefusal;
use std::alloc::Global;
use std::process::Abort;

fn is_told(rt: &impl Abort, alloc: Global, answer: Answer, text: &[u8]) {
    let told = answer_text(alloc, &answer).expect(rt, "memory is there");
    drop(answer);
    assert!(rt; told.as_slice() == text);
    drop(told);
}

#[test]
fn refusals_are_told_with_their_numbers(rt: HostRuntime) {
    let alloc = rt.alloc();
    let rows = [
        (ChipRefusal::NoChip, b"nochip".as_slice()),
        (ChipRefusal::DiskFault, b"fault disk".as_slice()),
        (ChipRefusal::ProviderFault, b"fault provider".as_slice()),
        (
            ChipRefusal::Syntax(CvcRefusal::Trailing),
            b"syntax 8".as_slice(),
        ),
        (
            ChipRefusal::Refused(ImportRefusal::Signature),
            b"refused 9".as_slice(),
        ),
        (ChipRefusal::Worn, b"worn".as_slice()),
    ];
    for (refusal, text) in rows {
        is_told(
            &rt,
            alloc,
            Answer::Imported(ImportAnswer::NotTaken(refusal)),
            text,
        );
        is_told(
            &rt,
            alloc,
            Answer::Presented(Presented::NotOpened(refusal)),
            text,
        );
        is_told(&rt, alloc, Answer::Looked(Looked::NotOpened(refusal)), text);
    }
}
