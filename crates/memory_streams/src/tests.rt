use super::{RoomSink, SliceSource};
use std::test::Fail;
use wasm_streams::{Sink, read_input, write_all};

#[test]
fn reads_all_of_the_bytes(rt: HostRuntime) -> Result<(), Fail> {
    let mut source = SliceSource::new(b"module");
    let read = read_input(rt.alloc(), &mut source)?;
    assert_eq!(rt; read.as_slice(), b"module".as_slice());
    Ok(())
}

#[test]
fn writes_what_there_is_room_for(rt: HostRuntime) -> Result<(), Fail> {
    let mut sink = RoomSink::new(rt.alloc(), 4)?;
    assert!(rt; write_all(&mut sink, b"abc").is_ok());
    assert!(rt; write_all(&mut sink, b"de").is_err());
    assert!(rt; sink.flush().is_ok());
    assert_eq!(rt; sink.len(), 4);
    let mut out = *b"......";
    sink.copy_to(&mut out);
    assert_eq!(rt; out.as_slice(), b"abcd..".as_slice());
    Ok(())
}
