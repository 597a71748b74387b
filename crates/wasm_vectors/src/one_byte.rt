use wasm_streams::{Sink, SinkFailed, Source, SourceFailed};

/// A source that gives one byte a read, and of whose reads, numbered from 0, one may fail. It tells nothing of its
/// bytes.
#[derive(Drop)]
pub struct OneByteSource {
    bytes: Vec<u8>,
    at: usize,
    calls: u64,
    failing: Option<u64>,
    faults: u64,
    ended: bool,
}

impl OneByteSource {
    /// A source of these bytes, in which the read of the number `failing` fails, if any.
    pub fn new(bytes: Vec<u8>, failing: Option<u64>) -> OneByteSource {
        OneByteSource {
            bytes,
            at: 0,
            calls: 0,
            failing,
            faults: 0,
            ended: false,
        }
    }

    /// How many reads there were.
    pub fn calls(&self) -> u64 {
        self.calls
    }
}

impl Source for OneByteSource {
    ghost use Rattle.std.specs.Prelude.{None};

    ghost left = { λ s. None };

    ghost ended = { λ s. s.ended };

    ghost faults = { λ s. s.faults };

    fn read(&mut self, buffer: &mut [u8]) -> Result<usize, SourceFailed> {
        let number = self.calls;
        self.calls = number.saturating_add(1);
        if self.failing == Some(number) {
            self.faults = self.faults.saturating_add(1);
            return Err(SourceFailed);
        }
        if buffer.is_empty() {
            return Ok(0);
        }
        let Some(byte) = self.bytes.get(self.at) else {
            self.ended = true;
            return Ok(0);
        };
        buffer[0] = *byte;
        self.at = self.at.saturating_add(1);
        Ok(1)
    }
}

/// A sink that takes one byte a write, and of whose calls, writes and flushes numbered together from 0, one may
/// fail. It tells nothing of its bytes.
#[derive(Drop)]
pub struct OneByteSink {
    bytes: Vec<u8>,
    calls: u64,
    failing: Option<u64>,
    faults: u64,
    flushed: bool,
}

impl OneByteSink {
    /// A sink that keeps its bytes in `bytes`, in which the call of the number `failing` fails, if any.
    pub fn new(bytes: Vec<u8>, failing: Option<u64>) -> OneByteSink {
        OneByteSink {
            bytes,
            calls: 0,
            failing,
            faults: 0,
            flushed: false,
        }
    }

    /// The bytes that were written.
    pub fn bytes(&self) -> &[u8] {
        self.bytes.as_slice()
    }

    /// How many writes and flushes there were.
    pub fn calls(&self) -> u64 {
        self.calls
    }
}

impl Sink for OneByteSink {
    ghost use Rattle.std.specs.Prelude.{None};

    ghost held = { λ s. None };

    ghost flushed = { λ s. s.flushed };

    ghost faults = { λ s. s.faults };

    fn write(&mut self, piece: &[u8]) -> Result<usize, SinkFailed> {
        let number = self.calls;
        self.calls = number.saturating_add(1);
        self.flushed = false;
        let Some(byte) = piece.first() else {
            return Ok(0);
        };
        if self.failing == Some(number) || self.bytes.push(*byte).is_err() {
            self.faults = self.faults.saturating_add(1);
            return Err(SinkFailed);
        }
        Ok(1)
    }

    fn flush(&mut self) -> Result<(), SinkFailed> {
        let number = self.calls;
        self.calls = number.saturating_add(1);
        self.flushed = self.failing != Some(number);
        if !self.flushed {
            self.faults = self.faults.saturating_add(1);
            return Err(SinkFailed);
        }
        Ok(())
    }
}
