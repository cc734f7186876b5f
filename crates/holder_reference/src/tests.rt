// Worked examples.
use super::*;
use std::test::Fail;

#[test]
fn a_reference_is_refused_by_its_first_broken_condition(rt: HostRuntime) {
    let rows = [
        (b"DEDVBUND00001".as_slice(), None),
        (b"DEDVBUNDFR001".as_slice(), None),
        (b"DEABCDEFGHI00001".as_slice(), None),
        (b"DEABCDEFGHIJ00001".as_slice(), Some(1)),
        (b"DEDVBUND0000a".as_slice(), Some(4)),
    ];
    for (bytes, refused) in rows {
        match read_reference(bytes) {
            Ok(reference) => {
                assert_eq!(rt; refused, None, "read {bytes:?}");
                assert_eq!(rt; reference.as_slice(), bytes);
            }
            Err(refusal) => assert_eq!(rt; refused, Some(refusal.number()), "at {bytes:?}"),
        }
    }
}

#[test]
fn a_reference_is_its_holder_and_its_sequence(rt: HostRuntime) -> Result<(), Fail> {
    let reference = read_reference(b"DEDVBUND00001")?;
    let (holder, sequence) = (reference.holder(), reference.sequence());
    assert_eq!(rt; holder.as_slice(), b"DEDVBUND".as_slice());
    assert_eq!(rt; sequence.as_slice(), b"00001".as_slice());
    assert!(rt; holder.is(&read_holder(b"DEDVBUND")?));
    assert!(rt; sequence.is(&first_sequence()));
    assert!(rt; reference.is(&join(&holder, &sequence)));
    Ok(())
}

#[test]
fn decimal_sequences_count_up_to_99999(rt: HostRuntime) -> Result<(), Fail> {
    let rows = [
        (b"DEDVBUND00009".as_slice(), Some(b"00010".as_slice())),
        (b"DEDVBUND99999".as_slice(), None),
        (b"DEDVBUNDFR001".as_slice(), None),
    ];
    for (bytes, next) in rows {
        let counted = next_sequence(&read_reference(bytes)?.sequence());
        assert_eq!(rt; counted.is_some(), next.is_some(), "after {bytes:?}");
        if let (Some(counted), Some(next)) = (counted, next) {
            assert_eq!(rt; counted.as_slice(), next);
        }
    }
    Ok(())
}
