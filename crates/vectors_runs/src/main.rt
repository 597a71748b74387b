//! Takes a row from each line of standard input: which read fails and which write or flush, `-` where none does, the bytes of
//! a module in hexadecimal or how many zeros there are, and the words of a run; with one blank between them. It writes the
//! exit status of the run, its name, and what the run wrote. The rows and the lines that are wanted are those of
//! `tools/binary/runs.py`.
#![tactic(auto)]

use binary_run::{BytesSink, BytesSource, CountEpochs, Status, run_main};
use std::alloc::Global;
use std::io;
use std::io::{BufRead, BufReader, Input};

/// How many bytes a sink has room for.
const ROOM: usize = 256;

/// The number of the call that fails, where one does.
fn failing(alloc: Global, text: &str) -> Option<Vec<u64>> {
    match text.parse::<u64>() {
        Ok(number) => vec![in alloc; number].ok(),
        Err(_) => Some(Vec::new(alloc)),
    }
}

/// What a source has: these bytes, or so many zeros.
fn input(alloc: Global, text: &str) -> Option<Vec<u8>> {
    match text.strip_prefix("zeros:") {
        Some(count) => vec![in alloc; 0u8; count.parse::<usize>().ok()?].ok(),
        None => hex::decode(alloc, text).ok(),
    }
}

/// The words behind the bytes.
fn words(alloc: Global, text: &str) -> Option<Vec<String>> {
    let mut words = Vec::new(alloc);
    for word in text.split(' ') {
        words.push(String::from_str(alloc, word).ok()?).ok()?;
    }
    Some(words)
}

/// How the run of a row ended, and the sink behind it.
fn run(
    alloc: Global,
    words: &[String],
    mut source: BytesSource,
    mut sink: BytesSink,
) -> (Status, BytesSink) {
    let mut epochs = CountEpochs::new();
    let status = run_main(alloc, words, &mut source, &mut sink, &mut epochs);
    (status, sink)
}

/// The same from the text of the row.
fn answered(alloc: Global, row: &str) -> Option<(Status, BytesSink)> {
    let (read, behind_read) = row.split_once(' ')?;
    let (write, behind_write) = behind_read.split_once(' ')?;
    let (bytes, words) = match behind_write.split_once(' ') {
        Some((bytes, text)) => (bytes, words(alloc, text)?),
        None => (behind_write, Vec::new(alloc)),
    };
    let source = BytesSource::new(input(alloc, bytes)?, failing(alloc, read)?);
    let sink = BytesSink::new(alloc, ROOM, failing(alloc, write)?).ok()?;
    Some(run(alloc, words.as_slice(), source, sink))
}

fn main(rt: HostRuntime) -> io::Result<()> {
    let rows = BufReader::new(rt.alloc(), rt.reader())?;
    for row in rows.lines(rt.alloc()) {
        let row = row?;
        match answered(rt.alloc(), row.as_str()) {
            Some((status, sink)) => {
                let text = String::from_utf8_lossy(rt.alloc(), sink.bytes())?;
                println!(rt; "{} {status} {text:?}", status.exit_code())?;
            }
            None => println!(rt; "no answer")?,
        }
    }
    Ok(())
}
