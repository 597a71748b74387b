use std::io::{Error, ErrorKind, Result, Write};

/// A writer of `std` that keeps what it takes back until it is flushed. It takes so many bytes a write at most, and
/// of its calls, writes and flushes numbered together from 0, one may fail.
#[derive(Drop)]
pub struct SlowWriter {
    waiting: Vec<u8>,
    passed: Vec<u8>,
    most: usize,
    calls: u64,
    failing: Option<u64>,
}

impl SlowWriter {
    /// A writer that keeps what waits in `waiting` and what was passed on in `passed`, in which the call of the
    /// number `failing` fails, if any.
    pub fn new(waiting: Vec<u8>, passed: Vec<u8>, most: usize, failing: Option<u64>) -> SlowWriter {
        SlowWriter {
            waiting,
            passed,
            most,
            calls: 0,
            failing,
        }
    }

    /// The bytes that wait for a flush.
    pub fn waiting(&self) -> &[u8] {
        self.waiting.as_slice()
    }

    /// The bytes that were passed on.
    pub fn passed(&self) -> &[u8] {
        self.passed.as_slice()
    }

    /// Counts a call, and says whether it fails.
    fn next_fails(&mut self) -> bool {
        let number = self.calls;
        self.calls = number.saturating_add(1);
        self.failing == Some(number)
    }
}

impl Write for SlowWriter {
    fn write(&mut self, piece: &[u8]) -> Result<usize> {
        let count = piece.len().min(self.most);
        if self.next_fails() || self.waiting.extend_from_slice(&piece[..count]).is_err() {
            return Err(Error::from(ErrorKind::Other));
        }
        Ok(count)
    }

    fn flush(&mut self) -> Result<()> {
        if self.next_fails()
            || self
                .passed
                .extend_from_slice(self.waiting.as_slice())
                .is_err()
        {
            return Err(Error::from(ErrorKind::Other));
        }
        self.waiting.clear();
        Ok(())
    }
}
