ghost use Rattle.std.specs.Prelude.{◌≡◌, ◌+◌, ◌-◌, ◌≤◌, ◌<◌, ◌++◌, List, [], ◌∷◌, length, drop, set, nat_lt, map, reverse, slice_get, MatchOption, MatchBool, IfOk, OnOk, OnErr, ◌⊎◌, ◌==◌};
ghost use Rattle.std.specs.Bool.{OnTrue, OnFalse};
ghost use Rattle.wasm_objects.specs.declared.raw.RawVal.{RawVal};
ghost use Rattle.wasm_objects.specs.declared.raw.RawVal.TheVariants as w;
ghost use Rattle.code_stack.specs.Reading.{LacksI32, LacksI64, LacksReference, TakesI32, TakesI64};
ghost use Rattle.std.specs.Borrow.{sem};
ghost use Rattle.code_stack.specs.Lending.{LendsRows};
ghost use Rattle.code_stack.specs.Values.{below, values_parts, HasOpened, HasClosed, HasFinished, HasEntered, HasLeft, CannotClose};

use crate::row::{Row, Rows};
use std::alloc::Global;
use std::marker::Model;
use wasm_objects::{RawRef, RawVal};
use wasm_types::OutOfMemory;

/// The operands of all open labels in one row, and the locals of all open frames in another. Contracts see the
/// operands of the innermost label, the topmost first, the locals of the innermost frame, all that lies below, and
/// for how many more operands there is room.
pub struct Values {
    rows: Rows,
}

// Written out, so that the crates above do not prove it again of all that is in it.
impl Drop for Values {
    fn drop(self) {
        let Values { rows: _rows } = self;
    }
}

impl Model for Values {
    ghost use Rattle.code_stack.specs.Values.{ValuesParts, two_rows, stack_code};

    ghost Value = { ValuesParts };

    ghost coded = { stack_code };

    ghost view = { λ v. two_rows v.rows.operands v.rows.locals };
}

impl Values {
    /// One label and one frame, which are empty.
    pub fn new(alloc: Global) -> Values
        ensures { result ≡ values_parts [] [] (below [] []) 0 }
    {
        Values {
            rows: Rows {
                operands: Row::new(alloc),
                locals: Row::new(alloc),
            },
        }
    }

    /// How many operands the innermost label has.
    #[inline]
    pub fn height(&self) -> usize
        ensures { result ≡ length self.now.operands }
    {
        self.rows.operands.len()
    }

    /// Whether there is no room for one more operand.
    #[inline]
    pub fn is_full(&self) -> bool
        ensures { result ≡ (self.now.room == 0) }
    {
        self.rows.operands.is_full()
    }

    /// Makes room for `extra` more operands, and changes nothing else.
    pub fn reserve(&mut self, extra: usize) -> Result<(), OutOfMemory>
        ensures room { OnOk result (extra ≤ self.new.room) }
        ensures operands { self.new.operands ≡ self.old.operands }
        ensures locals { self.new.locals ≡ self.old.locals }
        ensures below { self.new.below ≡ self.old.below }
    {
        self.rows.operands.reserve(extra)
    }

    /// Makes operands of the innermost label of all the room, whatever stands there. It takes no memory, and no time.
    #[inline]
    pub fn fill(&mut self)
        ensures { (spare : List RawVal) × (length spare ≡ self.old.room)
            × (self.new ≡ values_parts (spare ++ self.old.operands) self.old.locals self.old.below 0) }
    {
        self.rows.operands.fill();
    }

    /// Keeps the lowest `count` operands of the innermost label, and makes room of the others.
    #[inline]
    pub fn keep(&mut self, count: usize)
        requires { count ≤ length self.old.operands }
        ensures { self.new ≡ values_parts (drop (length self.old.operands - count) self.old.operands) self.old.locals
            self.old.below (self.old.room + (length self.old.operands - count)) }
    {
        self.rows.operands.keep(count);
    }

    /// An operand more, for which there is room.
    #[inline]
    pub fn push(&mut self, value: RawVal)
        requires { 0 < self.old.room }
        ensures { self.new ≡ values_parts (value ∷ self.old.operands) self.old.locals self.old.below
            (self.old.room - 1) }
    {
        self.rows.operands.push(value);
    }

    /// Takes the topmost operand of the innermost label; `None` where it has none.
    #[inline]
    pub fn pop(&mut self) -> Option<RawVal>
        ensures value { MatchOption result (self.old.operands ≡ [])
            (λ v. (self.old.operands ≡ v ∷ self.new.operands) × (self.new.room ≡ self.old.room + 1)) }
        ensures rest { self.new.operands ≡ drop 1 self.old.operands }
        ensures locals { self.new.locals ≡ self.old.locals }
        ensures below { self.new.below ≡ self.old.below }
        ensures room { self.old.room ≤ self.new.room }
    {
        self.rows.operands.pop()
    }

    /// The operands of the innermost label, lent, the topmost last.
    #[inline]
    pub fn operands(&self) -> &[RawVal]
        ensures { result.now ≡ reverse self.now.operands }
    {
        self.rows.operands.last()
    }

    /// The two rows, lent to be changed: the last segment of each is the operands of the innermost label, the topmost
    /// last, and the locals of the innermost frame. Once the loan ends, the values are what was left in the rows.
    #[inline]
    pub fn lend(&mut self) -> &mut Rows
        ensures* lends { sem 𝓛 (LendsRows self.entry result) }
        ensures operands { result.now.operands.last ≡ reverse self.old.operands }
        ensures locals { result.now.locals.last ≡ self.old.locals }
        ensures below { below (map reverse result.now.operands.before) result.now.locals.before ≡ self.old.below }
        ensures room { result.now.operands.room ≡ self.old.room }
    {
        &mut self.rows
    }

    /// The local at a place of the innermost frame; `None` past the last.
    #[inline]
    pub fn local(&self, at: usize) -> Option<RawVal>
        ensures { result ≡ slice_get self.now.locals at }
    {
        self.rows.locals.get(at)
    }

    /// Makes `value` the local at a place of the innermost frame; `false` exactly past the last, and then nothing
    /// changes.
    #[inline]
    pub fn set_local(&mut self, at: usize, value: RawVal) -> bool
        ensures there { result ≡ nat_lt at (length self.old.locals) }
        ensures written { OnTrue result (self.new ≡ values_parts self.old.operands (set self.old.locals at value)
            self.old.below self.old.room) }
        ensures refused { OnFalse result (self.new ≡ self.old) }
    {
        self.rows.locals.set(at, value)
    }

    /// A local more of the innermost frame, behind the others.
    pub fn add_local(&mut self, value: RawVal) -> Result<(), OutOfMemory>
        ensures added { OnOk result (self.new ≡ values_parts self.old.operands (self.old.locals ++ value ∷ [])
            self.old.below self.old.room) }
        ensures short { OnErr result (self.new ≡ self.old) }
    {
        self.rows.locals.reserve(1)?;
        self.rows.locals.push(value);
        Ok(())
    }

    /// Makes the topmost `count` operands those of an inner label; `false` where there are fewer.
    #[inline]
    pub fn open(&mut self, count: usize) -> Result<bool, OutOfMemory>
        ensures done { IfOk result (λ b. MatchBool b (HasOpened count self.old self.new)
            (length self.old.operands < count)) }
        ensures refused { IfOk result (λ b. OnFalse b (self.new ≡ self.old)) }
        ensures short { OnErr result (self.new ≡ self.old) }
    {
        let held = self.rows.operands.len();
        if held < count {
            return Ok(false);
        }
        self.rows.operands.split_behind(held - count)?;
        Ok(true)
    }

    /// Ends the innermost label, and as many around it as are to be skipped: the topmost `count` operands go to the
    /// next one. `false` where there are fewer operands or labels. It is compiled in place, as each branch ends with it.
    #[inline(always)]
    pub fn close(&mut self, skipped: usize, count: usize) -> bool
        ensures done { MatchBool result (HasClosed skipped count self.old self.new)
            (CannotClose skipped count self.old) }
        ensures refused { OnFalse result (self.new ≡ self.old) }
    {
        if self.rows.operands.len() < count {
            return false;
        }
        self.rows.operands.join(skipped, count)
    }

    /// Ends the innermost label with all its operands; `false` where there is no label around it.
    #[inline]
    pub fn finish(&mut self) -> bool
        ensures done { MatchBool result (HasFinished self.old self.new) (self.old.below.operands ≡ []) }
        ensures refused { OnFalse result (self.new ≡ self.old) }
    {
        self.rows.operands.merge()
    }

    /// Makes the topmost `count` operands the locals of an inner frame, with an empty label; `false` where there are
    /// fewer.
    #[inline]
    pub fn enter(&mut self, count: usize) -> Result<bool, OutOfMemory>
        ensures done { IfOk result (λ b. MatchBool b (HasEntered count self.old self.new)
            (length self.old.operands < count)) }
        ensures refused { IfOk result (λ b. OnFalse b (self.new ≡ self.old)) }
    {
        let held = self.rows.operands.len();
        if held < count {
            return Ok(false);
        }
        self.rows
            .locals
            .begin(&self.rows.operands.last()[held - count..])?;
        self.rows.operands.shorten(count);
        self.rows.operands.split_behind(held - count)?;
        Ok(true)
    }

    /// Ends the innermost frame with its innermost label and as many around it as are to be skipped: the topmost
    /// `count` operands go to the frame around it. `false` where there are fewer operands, labels or frames.
    #[inline]
    pub fn leave(&mut self, skipped: usize, count: usize) -> bool
        ensures { MatchBool result (HasLeft skipped count self.old self.new)
            (CannotClose skipped count self.old ⊎ (self.old.below.locals ≡ [])) }
    {
        self.close(skipped, count) && self.rows.locals.end()
    }

    /// Takes an integer of 32 bits from the top, as an unsigned number; `None` where there is none.
    #[inline]
    pub fn pop_i32(&mut self) -> Option<u32>
        ensures value { MatchOption result (LacksI32 self.old.operands)
            (λ x. TakesI32 self.old.operands x self.new.operands × (self.new.room ≡ self.old.room + 1)) }
        ensures rest { self.new.operands ≡ drop 1 self.old.operands }
        ensures locals { self.new.locals ≡ self.old.locals }
        ensures below { self.new.below ≡ self.old.below }
        ensures room { self.old.room ≤ self.new.room }
    {
        match self.pop()? {
            RawVal::I32(n) => Some(n.cast_unsigned()),
            _ => None,
        }
    }

    /// Takes an integer of 64 bits from the top, as an unsigned number; `None` where there is none.
    #[inline]
    pub fn pop_i64(&mut self) -> Option<u64>
        ensures value { MatchOption result (LacksI64 self.old.operands)
            (λ x. TakesI64 self.old.operands x self.new.operands × (self.new.room ≡ self.old.room + 1)) }
        ensures rest { self.new.operands ≡ drop 1 self.old.operands }
        ensures locals { self.new.locals ≡ self.old.locals }
        ensures below { self.new.below ≡ self.old.below }
        ensures room { self.old.room ≤ self.new.room }
    {
        match self.pop()? {
            RawVal::I64(n) => Some(n.cast_unsigned()),
            _ => None,
        }
    }

    /// Takes a reference from the top; `None` where there is none.
    #[inline]
    pub fn pop_reference(&mut self) -> Option<RawRef>
        ensures value { MatchOption result (LacksReference self.old.operands)
            (λ r. (self.old.operands ≡ w.Reference r ∷ self.new.operands) × (self.new.room ≡ self.old.room + 1)) }
        ensures rest { self.new.operands ≡ drop 1 self.old.operands }
        ensures locals { self.new.locals ≡ self.old.locals }
        ensures below { self.new.below ≡ self.old.below }
        ensures room { self.old.room ≤ self.new.room }
    {
        match self.pop()? {
            RawVal::Reference(r) => Some(r),
            _ => None,
        }
    }
}
