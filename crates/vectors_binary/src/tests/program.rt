use binary_program::{BinaryStatus, BytesSink, BytesSource, binary_main};
use std::alloc::{AllocError, Global};
use wasm_types::OutOfMemory;

const EMPTY: [u8; 8] = [0x00, 0x61, 0x73, 0x6d, 0x01, 0x00, 0x00, 0x00];

// A function that gives 7, exported as `f`: the place of its instruction's code is 31.
const SEVEN: [u8; 34] = [
    0x00, 0x61, 0x73, 0x6d, 0x01, 0x00, 0x00, 0x00, 0x01, 0x05, 0x01, 0x60, 0x00, 0x01, 0x7f, 0x03,
    0x02, 0x01, 0x00, 0x07, 0x05, 0x01, 0x01, 0x66, 0x00, 0x00, 0x0a, 0x06, 0x01, 0x04, 0x00, 0x41,
    0x07, 0x0b,
];

/// A source of these bytes, whose reads of these numbers fail.
fn source_of(alloc: Global, bytes: &[u8], fails: &[u64]) -> Result<BytesSource, AllocError> {
    let bytes = Vec::from_slice(alloc, bytes)?;
    Ok(BytesSource::new(bytes, Vec::from_slice(alloc, fails)?))
}

/// Whether this status and this text come of the bytes, where the sink has room for so many.
fn says(
    alloc: Global,
    bytes: &[u8],
    room: usize,
    status: BinaryStatus,
    line: &str,
) -> Result<bool, OutOfMemory> {
    let mut source = source_of(alloc, bytes, &[])?;
    let mut sink = BytesSink::new(alloc, room, Vec::new(alloc))?;
    let ended = binary_main(alloc, &mut source, &mut sink);
    Ok(ended == status && sink.bytes() == line.as_bytes())
}

fn is_done(rt: &HostRuntime, bytes: &[u8], line: &str) -> bool {
    says(rt.alloc(), bytes, 64, BinaryStatus::Done, line).unwrap_or(false)
}

fn is_refused(rt: &HostRuntime, bytes: &[u8], line: &str) -> bool {
    says(rt.alloc(), bytes, 64, BinaryStatus::Refused, line).unwrap_or(false)
}

#[test]
fn lines_of_modules_and_of_faults(rt: HostRuntime) {
    let none = "module types 0 imports 0 functions 0 exports 0\n";
    assert!(rt; is_done(&rt, &EMPTY, none));
    let one = "module types 1 imports 0 functions 1 exports 1\n";
    assert!(rt; is_done(&rt, &SEVEN, one));
    let mut other = SEVEN;
    other[31] = 0x1c;
    assert!(rt; is_refused(&rt, &other, "unsupported 31 28\n"));
    other[31] = 0xfc;
    other[32] = 0x12;
    assert!(rt; is_refused(&rt, &other, "unsupported 32 64530\n"));
    assert!(rt; is_refused(&rt, &SEVEN[..33], "malformed\n"));
    assert!(rt; is_refused(&rt, &[], "malformed\n"));
    let mut other = SEVEN;
    other[18] = 0x01;
    assert!(rt; is_refused(&rt, &other, "index 18\n"));
}

#[test]
fn streams_that_fail(rt: HostRuntime) {
    let status = BinaryStatus::WriteFault;
    assert!(rt; says(rt.alloc(), &EMPTY, 3, status, "mod").unwrap_or(false));
    let Ok(mut source) = source_of(rt.alloc(), &EMPTY, &[0]) else {
        panic!(rt; "no memory");
    };
    let Ok(mut sink) = BytesSink::new(rt.alloc(), 64, Vec::new(rt.alloc())) else {
        panic!(rt; "no memory");
    };
    let status = binary_main(rt.alloc(), &mut source, &mut sink);
    assert!(rt; status == BinaryStatus::ReadFault);
    assert!(rt; sink.bytes().is_empty());
}

// Apart, so that no proof of a test meets a list of so many zeros.
fn zeros(alloc: Global, count: usize) -> Result<Vec<u8>, AllocError> {
    vec![in alloc; 0u8; count]
}

#[test]
fn more_bytes_than_an_input_may_have(rt: HostRuntime) {
    let Ok(bytes) = zeros(rt.alloc(), 16777217) else {
        panic!(rt; "no memory");
    };
    let mut source = BytesSource::new(bytes, Vec::new(rt.alloc()));
    let Ok(mut sink) = BytesSink::new(rt.alloc(), 64, Vec::new(rt.alloc())) else {
        panic!(rt; "no memory");
    };
    let status = binary_main(rt.alloc(), &mut source, &mut sink);
    assert!(rt; status == BinaryStatus::TooLong);
    assert!(rt; status.exit_code() == 4);
}
