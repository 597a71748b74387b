ghost use Rattle.std.specs.Prelude.{◌≡◌, false};
ghost use Rattle.wasm_streams.specs.Standard.{std_source_parts, std_sink_parts};

use crate::sink::{Sink, SinkFailed};
use crate::source::{Source, SourceFailed};
use std::io::{Read, Write};
use std::marker::Model;

/// Standard input, or another reader of `std`: it tells none of its bytes as those that it has left.
///
/// Its count of faults begins at 0, rises by one at each failure, and stops at 2^64 - 1.
#[derive(Drop)]
pub struct StdSource<R> {
    reader: R,
    faults: u64,
    ended: bool,
}

impl<R> Model for StdSource<R> {
    ghost use Rattle.wasm_streams.specs.Standard.{StdSourceParts, std_source_parts, std_source_code};

    ghost Value = { StdSourceParts R };

    ghost coded = { std_source_code R.code };

    ghost view = { λ s. std_source_parts s.reader s.faults s.ended };
}

impl<R: Read + Drop> StdSource<R> {
    /// A source that has not ended, and has had no fault.
    pub fn new(reader: R) -> StdSource<R>
        ensures { result ≡ std_source_parts reader 0 false }
    {
        StdSource {
            reader,
            faults: 0,
            ended: false,
        }
    }
}

// A method with a clause of its own says the trait's again: of bytes that are not told they say nothing.
impl<R: Read + Drop> Source for StdSource<R> {
    ghost use Rattle.std.specs.Prelude.{◌≡◌, ◌≤◌, ◌<◌, ◌||◌, take, length, is_ok, if◌then◌else◌, IfOk, OnOk, OnErr};
    ghost use Rattle.std.specs.Io.KnownBytes.{ReadConsumes};
    ghost use Rattle.wasm_streams.specs.InMemory.{one_more};
    ghost use Rattle.wasm_streams.specs.Streams.{untold, before, HasNothing, Rose, is_end};

    ghost left = { λ s. untold };

    ghost ended = { λ s. s.ended };

    ghost faults = { λ s. s.faults };

    /// One read of the reader. `SourceFailed` where that fails. Of a reader whose bytes are known, they are the next ones.
    fn read(&mut self, buffer: &mut [u8]) -> Result<usize, SourceFailed>
        ensures within { IfOk result (λ n. n ≤ length buffer.old) }
        ensures taken { IfOk result (λ n. untold ≡ before (take n buffer.new) untold) }
        ensures end { IfOk result (λ n. n ≡ 0 → 0 < length buffer.old → HasNothing untold) }
        ensures tells { self.new.ended ≡ (self.old.ended || is_end result buffer.old) }
        ensures untouched { OnErr result (untold ≡ untold) }
        ensures cause { OnErr result (Rose self.old.faults self.new.faults) }
        ensures uncounted { OnOk result (self.new.faults ≡ self.old.faults) }
        ensures never_falls { self.old.faults ≤ self.new.faults }
        ensures counted { self.new.faults ≡ (if is_ok result then self.old.faults else one_more self.old.faults) }
        ensures bytes { ReadConsumes (R.remaining self.old.reader) (R.remaining self.new.reader) result buffer.new }
    {
        let Ok(count) = self.reader.read(buffer) else {
            self.faults = self.faults.saturating_add(1);
            return Err(SourceFailed);
        };
        if count == 0 && !buffer.is_empty() {
            self.ended = true;
        }
        Ok(count)
    }
}

/// Standard output, or another writer of `std`: it tells none of its bytes as those that it holds.
///
/// Its count of faults begins at 0, rises by one at each failure, and stops at 2^64 - 1.
#[derive(Drop)]
pub struct StdSink<W> {
    writer: W,
    faults: u64,
    flushed: bool,
}

impl<W> Model for StdSink<W> {
    ghost use Rattle.wasm_streams.specs.Standard.{StdSinkParts, std_sink_parts, std_sink_code};

    ghost Value = { StdSinkParts W };

    ghost coded = { std_sink_code W.code };

    ghost view = { λ s. std_sink_parts s.writer s.faults s.flushed };
}

impl<W: Write + Drop> StdSink<W> {
    /// A sink that has not been flushed, and has had no fault.
    pub fn new(writer: W) -> StdSink<W>
        ensures { result ≡ std_sink_parts writer 0 false }
    {
        StdSink {
            writer,
            faults: 0,
            flushed: false,
        }
    }
}

// As above.
impl<W: Write + Drop> Sink for StdSink<W> {
    ghost use Rattle.std.specs.Prelude.{◌≡◌, ◌≤◌, ◌<◌, false, take, length, is_ok, if◌then◌else◌, IfOk, OnOk, OnErr};
    ghost use Rattle.std.specs.Io.KnownBytes.{Keeps, WriteAppends};
    ghost use Rattle.wasm_streams.specs.InMemory.{one_more};
    ghost use Rattle.wasm_streams.specs.Streams.{untold, after, Rose};

    ghost held = { λ s. untold };

    ghost flushed = { λ s. s.flushed };

    ghost faults = { λ s. s.faults };

    /// One write of the writer. `SinkFailed` where that fails, or takes nothing of a piece that is not empty. A writer
    /// whose bytes are known has the front that was taken at their end.
    fn write(&mut self, piece: &[u8]) -> Result<usize, SinkFailed>
        ensures within { IfOk result (λ n. n ≤ length piece.now) }
        ensures some { IfOk result (λ n. 0 < length piece.now → 0 < n) }
        ensures wrote { IfOk result (λ n. untold ≡ after (take n piece.now) untold) }
        ensures untouched { OnErr result (untold ≡ untold) }
        ensures tells { self.new.flushed ≡ false }
        ensures cause { OnErr result (Rose self.old.faults self.new.faults) }
        ensures uncounted { OnOk result (self.new.faults ≡ self.old.faults) }
        ensures never_falls { self.old.faults ≤ self.new.faults }
        ensures counted { self.new.faults ≡ (if is_ok result then self.old.faults else one_more self.old.faults) }
        ensures bytes { WriteAppends (W.contents self.old.writer) (W.contents self.new.writer) result piece.now }
    {
        self.flushed = false;
        let Ok(count) = self.writer.write(piece) else {
            self.faults = self.faults.saturating_add(1);
            return Err(SinkFailed);
        };
        if count == 0 && !piece.is_empty() {
            self.faults = self.faults.saturating_add(1);
            return Err(SinkFailed);
        }
        Ok(count)
    }

    /// One flush of the writer. `SinkFailed` where that fails. Known bytes of the writer stay.
    fn flush(&mut self) -> Result<(), SinkFailed>
        ensures same { untold ≡ untold }
        ensures tells { self.new.flushed ≡ is_ok result }
        ensures cause { OnErr result (Rose self.old.faults self.new.faults) }
        ensures uncounted { OnOk result (self.new.faults ≡ self.old.faults) }
        ensures never_falls { self.old.faults ≤ self.new.faults }
        ensures counted { self.new.faults ≡ (if is_ok result then self.old.faults else one_more self.old.faults) }
        ensures bytes { Keeps (W.contents self.old.writer) (W.contents self.new.writer) }
    {
        self.flushed = self.writer.flush().is_ok();
        if !self.flushed {
            self.faults = self.faults.saturating_add(1);
            return Err(SinkFailed);
        }
        Ok(())
    }
}
