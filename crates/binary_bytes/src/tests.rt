use super::run;
use binary_run::Status;
use std::test::Fail;

/// A module that exports a function `add` of two integers of 32 bits.
const ADD: &[u8] =
    b"\0asm\x01\0\0\0\x01\x07\x01\x60\x02\x7f\x7f\x01\x7f\x03\x02\x01\0\x07\x07\x01\x03add\0\0\x0a\x09\x01\x07\0\x20\0\x20\x01\x6a\x0b";

#[test]
fn writes_the_line(rt: HostRuntime) -> Result<(), Fail> {
    let mut out = *b"....................";
    let ran = run(rt.alloc(), "add\02\040", ADD, &mut out);
    assert!(rt; ran.status == Status::Done);
    assert_eq!(rt; out.as_slice(), b"ok values i32:42\n...".as_slice());
    Ok(())
}

#[test]
fn tells_why_there_is_no_line(rt: HostRuntime) -> Result<(), Fail> {
    let mut out = *b"....";
    let short = run(rt.alloc(), "add\02\040", ADD, &mut out);
    assert!(rt; short.status == Status::WriteFault);
    assert_eq!(rt; out.as_slice(), b"ok v".as_slice());
    let unknown = run(rt.alloc(), "sub\02\040", ADD, &mut out);
    assert!(rt; unknown.status == Status::NoFunction);
    assert_eq!(rt; unknown.count, 0);
    Ok(())
}
