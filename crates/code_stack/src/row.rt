ghost use Rattle.std.specs.Prelude.{◌≡◌, ◌≢◌, ◌+◌, ◌-◌, ◌≤◌, ◌<◌, ◌++◌, List, [], ◌∷◌, length, take, drop, set, nat_lt, slice_get, get_or, reverse, MatchOption, MatchBool, OnOk, OnErr, ◌==◌};
ghost use Rattle.std.specs.Bool.{OnTrue, OnFalse};
ghost use Rattle.std.specs.Borrow.{sem};
ghost use Rattle.code_stack.specs.Cuts.{row_parts, HasJoined, HasMerged};
ghost use Rattle.code_stack.specs.Lending.{LendsLast};
ghost use Rattle.wasm_objects.specs.declared.raw.RawVal.{RawVal};

use crate::moves;
use std::alloc::Global;
use std::marker::Model;
use wasm_objects::RawVal;
use wasm_types::OutOfMemory;

/// Values in a row, cut into segments. Contracts see the last segment, those before it, and the room for more.
#[derive(Drop)]
pub struct Row {
    // The values, and behind them the room: values that no one reads, so that a push need not ask for memory and the
    // room can be lent as it is.
    items: Vec<RawVal>,
    // How many of the items are values of the row.
    height: usize,
    // Where the last segment begins, and where those before it do.
    start: usize,
    starts: Vec<usize>,
}

impl Model for Row {
    ghost use Rattle.std.specs.Prelude.{◌∷◌, ◌-◌, ◌≤◌, take, reverse, vec_len};
    ghost use Rattle.code_stack.specs.Cuts.{RowParts, IsCut, cut, row_code};

    ghost Value = { RowParts };

    ghost coded = { row_code };

    ghost view = { λ r. cut r.start (reverse r.starts.items) (take r.height r.items.items) (vec_len r.items - r.height) };

    ghost invariant = { λ r. IsCut (r.start ∷ reverse r.starts.items) r.height r.items.items };
}

impl Row {
    /// A row of one empty segment.
    pub(crate) fn new(alloc: Global) -> Row
        ensures { result ≡ row_parts [] [] 0 }
    {
        Row {
            items: Vec::new(alloc),
            height: 0,
            start: 0,
            starts: Vec::new(alloc),
        }
    }

    /// How many values the last segment has.
    #[inline]
    pub fn len(&self) -> usize
        ensures { result ≡ length self.now.last }
    {
        self.height - self.start
    }

    /// Whether there is a segment before the last one.
    #[inline]
    pub fn is_cut(&self) -> bool
        ensures { MatchBool result (self.now.before ≢ []) (self.now.before ≡ []) }
    {
        match self.starts.last() {
            Some(_) => true,
            None => false,
        }
    }

    /// Whether there are more segments before the last one than so many.
    #[inline]
    pub fn is_deeper(&self, skipped: usize) -> bool
        ensures { MatchBool result (drop skipped self.now.before ≢ []) (drop skipped self.now.before ≡ []) }
    {
        skipped < self.starts.len()
    }

    /// Whether there is no room for a value more.
    #[inline]
    pub(crate) fn is_full(&self) -> bool
        ensures { result ≡ (self.now.room == 0) }
    {
        self.items.len() <= self.height
    }

    /// Makes room for `extra` more values.
    pub(crate) fn reserve(&mut self, extra: usize) -> Result<(), OutOfMemory>
        ensures room { OnOk result (extra ≤ self.new.room) }
        ensures last { self.new.last ≡ self.old.last }
        ensures before { self.new.before ≡ self.old.before }
    {
        if extra <= self.items.len() - self.height {
            return Ok(());
        }
        let Some(length) = self.height.checked_add(extra) else {
            return Err(OutOfMemory);
        };
        self.items.resize(length, RawVal::I32(0))?;
        Ok(())
    }

    /// A value more at the end, for which there is room.
    #[inline]
    pub(crate) fn push(&mut self, value: RawVal)
        requires { 0 < self.old.room }
        ensures { self.new ≡ row_parts (self.old.last ++ value ∷ []) self.old.before (self.old.room - 1) }
    {
        self.items[self.height] = value;
        self.height += 1;
    }

    /// Takes the last value of the last segment; `None` where that is empty.
    #[inline]
    pub(crate) fn pop(&mut self) -> Option<RawVal>
        ensures { MatchOption result ((self.old.last ≡ []) × (self.new ≡ self.old))
            (λ v. (self.old.last ≡ self.new.last ++ v ∷ []) × (self.new.before ≡ self.old.before)
            × (self.new.room ≡ self.old.room + 1)) }
    {
        if self.height <= self.start {
            return None;
        }
        self.height -= 1;
        Some(self.items[self.height])
    }

    /// The values of the last segment, lent.
    #[inline]
    pub fn last(&self) -> &[RawVal]
        ensures { result.now ≡ self.now.last }
    {
        &self.items[self.start..self.height]
    }

    /// The values of the last segment, lent to be changed. Once the loan ends, the segment holds what was left there.
    #[inline]
    pub fn last_mut(&mut self) -> &mut [RawVal]
        ensures* lends { sem 𝓛 (LendsLast self.entry result) }
        ensures value { result.now ≡ self.old.last }
    {
        self.items.slice_mut(self.start..self.height)
    }

    /// The value at a place of the last segment; `None` past its end.
    #[inline]
    pub(crate) fn get(&self, at: usize) -> Option<RawVal>
        ensures { result ≡ slice_get self.now.last at }
    {
        if at >= self.height - self.start {
            return None;
        }
        Some(self.items[self.start + at])
    }

    /// Makes `value` that at a place of the last segment; `false` exactly past its end.
    #[inline]
    pub(crate) fn set(&mut self, at: usize, value: RawVal) -> bool
        ensures there { result ≡ nat_lt at (length self.old.last) }
        ensures written { OnTrue result
            (self.new ≡ row_parts (set self.old.last at value) self.old.before self.old.room) }
        ensures refused { OnFalse result (self.new ≡ self.old) }
    {
        if at >= self.height - self.start {
            return false;
        }
        self.items[self.start + at] = value;
        true
    }

    /// Makes values of the last segment of all the room, whatever stands there.
    #[inline]
    pub fn fill(&mut self)
        ensures { (spare : List RawVal) × (length spare ≡ self.old.room)
            × (self.new ≡ row_parts (self.old.last ++ spare) self.old.before 0) }
    {
        self.height = self.items.len();
    }

    /// Makes what stands behind the first `kept` values of the last segment a segment of its own. Without memory for that
    /// nothing changes.
    #[inline]
    pub fn split_behind(&mut self, kept: usize) -> Result<(), OutOfMemory>
        requires { kept ≤ length self.old.last }
        ensures done { OnOk result (self.new ≡ row_parts (drop kept self.old.last)
            (take kept self.old.last ∷ self.old.before) self.old.room) }
        ensures short { OnErr result (self.new ≡ self.old) }
    {
        self.starts.push(self.start)?;
        self.start += kept;
        Ok(())
    }

    /// A new segment of these values.
    #[inline]
    pub(crate) fn begin(&mut self, values: &[RawVal]) -> Result<(), OutOfMemory>
        ensures last { OnOk result (self.new.last ≡ values.now) }
        ensures before { OnOk result (self.new.before ≡ self.old.last ∷ self.old.before) }
    {
        self.reserve(values.len())?;
        self.starts.push(self.start)?;
        let end = self.height + values.len();
        moves::write(&mut self.items, self.height, values);
        self.start = self.height;
        self.height = end;
        Ok(())
    }

    /// Drops the last `count` values of the last segment.
    #[inline]
    pub(crate) fn shorten(&mut self, count: usize)
        requires { count ≤ length self.old.last }
        ensures last { self.new.last ≡ take (length self.old.last - count) self.old.last }
        ensures before { self.new.before ≡ self.old.before }
    {
        self.height -= count;
    }

    /// Keeps the first `count` values of the last segment, and makes room of the others.
    #[inline]
    pub fn keep(&mut self, count: usize)
        requires { count ≤ length self.old.last }
        ensures { self.new ≡ row_parts (take count self.old.last) self.old.before
            (self.old.room + (length self.old.last - count)) }
    {
        self.height = self.start + count;
    }

    /// Moves the last `count` values to the end of a segment before, past `skipped` ones, and drops all between.
    /// `false` exactly where there are fewer segments; then nothing changes.
    #[inline]
    pub fn join(&mut self, skipped: usize, count: usize) -> bool
        requires { count ≤ length self.old.last }
        ensures { MatchBool result (HasJoined skipped count self.old self.new)
            ((drop skipped self.old.before ≡ []) × (self.new ≡ self.old)) }
    {
        let known = self.starts.len();
        if skipped >= known {
            return false;
        }
        let end = place(self.start, self.starts.as_slice(), skipped);
        let start = place(self.start, self.starts.as_slice(), skipped + 1);
        let moved = self.height - count;
        self.height = end + count;
        self.starts.truncate(known - skipped - 1);
        self.start = start;
        // Last of all, so that where it is a call nothing has to be kept over it.
        moves::copy_within(&mut self.items, end, moved, count);
        true
    }

    /// Makes the last segment one with the segment before it; `false` exactly where there is none, and then nothing
    /// changes.
    #[inline]
    pub fn merge(&mut self) -> bool
        ensures { MatchBool result (HasMerged self.old self.new) ((self.old.before ≡ []) × (self.new ≡ self.old)) }
    {
        let Some(start) = self.starts.pop() else {
            return false;
        };
        self.start = start;
        true
    }

    /// Drops the last segment; `false` exactly where there is none before it, and then nothing changes.
    #[inline]
    pub(crate) fn end(&mut self) -> bool
        ensures { MatchBool result (self.old.before ≡ self.new.last ∷ self.new.before)
            ((self.old.before ≡ []) × (self.new ≡ self.old)) }
    {
        let Some(start) = self.starts.pop() else {
            return false;
        };
        self.height = self.start;
        self.start = start;
        true
    }
}

/// A row of operands and a row of locals: two fields, so that both can be lent at once.
pub struct Rows {
    pub operands: Row,
    pub locals: Row,
}

// Written out, so that the crates above do not prove it again of all that is in it.
impl Drop for Rows {
    fn drop(self) {
        let Rows {
            operands: _operands,
            locals: _locals,
        } = self;
    }
}

/// Where a segment begins, so many before the last one.
#[inline]
fn place(start: usize, starts: &[usize], back: usize) -> usize
    requires { back ≤ length starts.now }
    ensures { result ≡ get_or (start ∷ reverse starts.now) back result }
{
    if back == 0 {
        return start;
    }
    starts[starts.len() - back]
}
