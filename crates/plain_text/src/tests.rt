// What no clause says: that the calls find memory.
use crate::decimal::push_number;
use crate::hexadecimal::read_bytes;
use eac_base::Octets;
use std::process::Abort;
use std::test::Fail;

#[test]
fn digits_are_appended(rt: HostRuntime) -> Result<(), Fail> {
    let alloc = rt.alloc();
    let mut text = Octets::from_slice(alloc, b"line ")?;
    push_number(alloc, &mut text, 18_446_744_073_709_551_615)?;
    assert!(rt; text.as_slice() == b"line 18446744073709551615".as_slice());
    drop(text);
    Ok(())
}

#[test]
fn digits_of_either_case_are_bytes(rt: HostRuntime) -> Result<(), Fail> {
    let alloc = rt.alloc();
    let bytes = read_bytes(alloc, b"00aBff")?.ok_or("three bytes")?;
    assert!(rt; bytes.as_slice() == b"\x00\xab\xff".as_slice());
    drop(bytes);
    Ok(())
}
