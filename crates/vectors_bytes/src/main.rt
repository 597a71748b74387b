//! Takes the bytes of a module from each line of standard input, in hexadecimal, and writes the line that the program over
//! bytes writes of them. The rows are those of `tools/binary/vectors.json`, and so are the lines that are wanted.
#![tactic(auto)]

use binary_program::{BytesSink, BytesSource, binary_main};
use std::alloc::Global;
use std::io;
use std::io::{BufRead, BufReader, Input};

/// The sink behind the program's run over the bytes of a row.
fn answered(alloc: Global, row: &str) -> Option<BytesSink> {
    let bytes = hex::decode(alloc, row).ok()?;
    let mut source = BytesSource::new(bytes, Vec::new(alloc));
    let mut sink = BytesSink::new(alloc, 128, Vec::new(alloc)).ok()?;
    binary_main(alloc, &mut source, &mut sink);
    Some(sink)
}

fn main(rt: HostRuntime) -> io::Result<()> {
    let rows = BufReader::new(rt.alloc(), rt.reader())?;
    for row in rows.lines(rt.alloc()) {
        let row = row?;
        match answered(rt.alloc(), row.as_str()) {
            Some(sink) => rt.print(String::from_utf8_lossy(rt.alloc(), sink.bytes())?)?,
            None => rt.println("no answer")?,
        }
    }
    Ok(())
}
