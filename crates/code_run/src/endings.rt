ghost use Rattle.code_run.specs.Settling.{Settles, Passes};

use crate::steps::Signal;
use crate::thread::Thread;
use wasm_syntax::Instr;

impl<'p> Thread<'p> {
    // Leaves what has ended, so that an instruction is next; `false` where the run is over, as the thread says.
    #[inline]
    pub(crate) fn settle(&mut self) -> bool
        ensures { Settles self.old result self.new }
    {
        'ends: loop {
            if !self.code.is_empty() {
                return true;
            }
            match self.end() {
                Signal::Goes => {}
                Signal::Ends => return false,
                Signal::Checks => unreachable!(),
            }
        }
    }

    // Passes the next instruction of the innermost code; `None` where there is none.
    #[inline]
    pub(crate) fn pass(&mut self) -> Option<Instr>
        ensures { Passes self.old result self.new }
    {
        match self.code.split_first() {
            Some((instr, rest)) => {
                self.code = rest;
                Some(*instr)
            }
            None => None,
        }
    }
}
