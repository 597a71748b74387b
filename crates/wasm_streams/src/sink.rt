ghost use Rattle.std.specs.Prelude.{◌≡◌, ℕ, ◌≤◌, ◌<◌, ◌&&◌, ◌==◌, List, Option, Bool, false, length, take, is_ok, OnErr, OnOk, IfOk};
ghost use Rattle.wasm_streams.specs.Streams.{after, Fronts, Rose};

use thiserror::Error;

/// A write or a flush failed, and took nothing.
#[derive(Debug, Drop, Error)]
#[error("sink failed")]
pub struct SinkFailed;

/// Where bytes go. Its rules are this project's own.
pub trait Sink {
    /// The bytes that it holds, where it can tell.
    ghost held: { Self → Option (List ℕ) };

    /// The last of its calls was a flush that did not fail: nothing that it took waits to be passed on.
    ghost flushed: { Self → Bool };

    /// How many faults it has had.
    ghost faults: { Self → ℕ };

    /// Takes a front of `piece`, and answers how many bytes: at least one of a piece that is not empty.
    ///
    /// `SinkFailed` comes only where the count of faults rose, or stands at its last value, 2^64 - 1; then nothing
    /// was taken. A write that does not fail leaves the count as it was.
    fn write(&mut self, piece: &[u8]) -> Result<usize, SinkFailed>
        ensures within { IfOk result (λ n. n ≤ length piece.now) }
        ensures some { IfOk result (λ n. 0 < length piece.now → 0 < n) }
        ensures wrote { IfOk result (λ n.
            held self.new ≡ after (take n piece.now) (held self.old)) }
        ensures untouched { OnErr result (held self.new ≡ held self.old) }
        ensures tells { flushed self.new ≡ false }
        ensures cause { OnErr result (Rose (faults self.old) (faults self.new)) }
        ensures uncounted { OnOk result (faults self.new ≡ faults self.old) }
        ensures never_falls { faults self.old ≤ faults self.new };

    /// Passes on what was taken. What the sink holds stays the same, whether or not it fails.
    ///
    /// `SinkFailed` comes only where the count of faults rose, or stands at its last value. A flush that does not fail
    /// leaves the count as it was.
    fn flush(&mut self) -> Result<(), SinkFailed>
        ensures same { held self.new ≡ held self.old }
        ensures tells { flushed self.new ≡ is_ok result }
        ensures cause { OnErr result (Rose (faults self.old) (faults self.new)) }
        ensures uncounted { OnOk result (faults self.new ≡ faults self.old) }
        ensures never_falls { faults self.old ≤ faults self.new };
}

/// Writes all of `text`, in as many writes as the sink needs, and does not flush.
///
/// `SinkFailed` comes only where a write failed, so where the sink's count of faults rose, or stands at its last
/// value; then a front of the text was written. Where all of it was written no write failed, so the count is as it was.
pub fn write_all<K: Sink>(sink: &mut K, text: &[u8]) -> Result<(), SinkFailed>
    ensures wrote { OnOk result (K.held sink.new ≡ after text.now (K.held sink.old)) }
    ensures front { Fronts text.now (K.held sink.old) (K.held sink.new) }
    ensures tells { K.flushed sink.new ≡ (K.flushed sink.old && (length text.now == 0)) }
    ensures cause { OnErr result (Rose (K.faults sink.old) (K.faults sink.new)) }
    ensures uncounted { OnOk result (K.faults sink.new ≡ K.faults sink.old) }
    ensures never_falls { K.faults sink.old ≤ K.faults sink.new }
{
    let mut done = 0;
    while done < text.len() {
        done += sink.write(&text[done..])?;
    }
    Ok(())
}
