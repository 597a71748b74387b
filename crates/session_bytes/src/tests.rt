use super::run;
use std::test::Fail;
use wasm_run::Status;

#[test]
fn writes_the_lines(rt: HostRuntime) -> Result<(), Fail> {
    let mut out = *b"....";
    let ran = run(rt.alloc(), b"{\"commands\": []}", &mut out);
    assert!(rt; ran.status == Status::Done);
    assert_eq!(rt; ran.count, 0);
    let short = run(
        rt.alloc(),
        b"{\"commands\": [{\"do\": \"memory_new\", \"min\": 1}]}",
        &mut out,
    );
    assert!(rt; short.status == Status::WriteFault);
    assert_eq!(rt; short.count, 4);
    Ok(())
}

#[test]
fn tells_what_is_no_script(rt: HostRuntime) {
    let mut out = *b"....";
    let ran = run(rt.alloc(), b"{", &mut out);
    assert!(rt; ran.status == Status::BadJson);
    assert!(rt; ran.count == 0);
}
