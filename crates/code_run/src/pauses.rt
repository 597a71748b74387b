ghost use Rattle.std.specs.Prelude.{◌≡◌, ◌≤◌, ◌++◌, OnOk, OnErr, drop, length, take, reverse};
ghost use Rattle.code_run.specs.Pausing.{results_at, Resumes, ResumeWaits};
ghost use Rattle.code_stack.specs.Steps.{arguments_at};
ghost use Rattle.code_run.specs.Steps.{seen};

use crate::thread::Thread;
use code_stack::{HostCall, Values};
use wasm_objects::RawVal;
use wasm_types::OutOfMemory;

// The topmost operands, so many at the most, the topmost one last.
fn topmost(values: &Values, count: usize) -> &[RawVal]
    ensures { result.now ≡ reverse (take count values.now.operands) }
{
    let operands = values.operands();
    let start = operands.len().saturating_sub(count);
    &operands[start..]
}

// Takes so many operands off.
#[tactic(auto, using(crate::proofs::ResumeLemmas::dropped_more))]
fn drop_operands(values: &mut Values, count: usize)
    requires { count ≤ length values.old.operands }
    ensures operands { values.new.operands ≡ drop count values.old.operands }
    ensures locals { values.new.locals ≡ values.old.locals }
    ensures below { values.new.below ≡ values.old.below }
{
    let mut left = count;
    'operands: while left > 0 {
        let Some(_) = values.pop() else {
            unreachable!();
        };
        left -= 1;
    }
}

// Adds these operands, the last one on top.
#[tactic(auto, using(crate::proofs::ResumeLemmas::added_more))]
fn add_operands(values: &mut Values, added: &[RawVal]) -> Result<(), OutOfMemory>
    ensures operands { OnOk result (values.new.operands ≡ reverse added.now ++ values.old.operands) }
    ensures locals { values.new.locals ≡ values.old.locals }
    ensures below { values.new.below ≡ values.old.below }
{
    values.reserve(added.len())?;
    let mut rest = added;
    'added: while let Some((value, tail)) = rest.split_first() {
        values.push(*value);
        rest = tail;
    }
    Ok(())
}

impl<'p> Thread<'p> {
    /// The number of the instance whose code is at work.
    pub fn instance(&self) -> usize
        ensures { result ≡ self.now.activation.instance }
    {
        self.activation.instance
    }

    /// How many functions are open, the one at work among them.
    pub fn depth(&self) -> usize
        ensures { result ≡ self.now.activation.depth }
    {
        self.activation.depth
    }

    /// The results of a thread that is done, in order.
    pub fn results(&self) -> &[RawVal]
        ensures { result.now ≡ results_at (seen self.now) }
    {
        topmost(&self.values, self.activation.results)
    }

    /// The arguments of a function of the host that the code called, in order.
    pub fn arguments(&self, call: HostCall<'p>) -> &[RawVal]
        ensures { result.now ≡ arguments_at (seen self.now) call.entry }
    {
        topmost(&self.values, call.ty.params().len())
    }

    /// Goes on behind a function of the host that the code called, with its results, in order. It runs no code, and takes
    /// no turn. `OutOfMemory` ends the thread.
    pub fn resume(&mut self, call: HostCall<'p>, results: &[RawVal]) -> Result<(), OutOfMemory>
        ensures resumes { OnOk result (Resumes self.old call.entry results.now self.new) }
        ensures waits { OnErr result (ResumeWaits self.old call.entry results.now) }
    {
        let count = call.ty.params().len().min(self.values.operands().len());
        drop_operands(&mut self.values, count);
        add_operands(&mut self.values, results)?;
        self.unchecked = false;
        Ok(())
    }
}
