//! A host whose one body takes two notes: of the number that it is handed, and of its own state.
use std::alloc::Global as Heap;
use wasm_call::{Answer, Caller, Event, HostBody, ValList};
use wasm_types::OutOfMemory;
use wasm_values::Val;

#[derive(Drop)]
pub struct Notes {
    pub taken: Vec<String>,
    pub state: u64,
}

impl Notes {
    /// Takes one note.
    fn push(&mut self, note: Option<String>) -> Result<(), OutOfMemory> {
        match note {
            Some(note) => Ok(self.taken.push(note)?),
            None => Err(OutOfMemory),
        }
    }

    fn take(&mut self, alloc: Heap, args: &[Val]) -> Result<(), OutOfMemory> {
        if let [Val::I32(number)] = args {
            self.push(format!(in alloc; "Got {number} from WebAssembly").ok())?;
            let state = self.state;
            self.push(format!(in alloc; "my host state is: {state}").ok())?;
        }
        Ok(())
    }
}

impl HostBody<()> for Notes {
    ghost use Rattle.std.specs.Prelude.{nat_eq};
    ghost use Rattle.wasm_host.specs.Hosts.{Harmless, harmless_keep, harmless_on};

    ghost ready = { λ _. Unit {0} };

    ghost has = { λ h body. nat_eq body 0 };

    ghost steps = { λ h s body state cause view after say k t. Harmless s say t };

    ghost host_faults = { λ _. 0 };

    ghost steps_keep = { λ h k s t body state after cause view say i.
        harmless_keep (λ _. 0) (λ _. 0) (λ _. 0) (λ _. 0) s t say i };

    ghost steps_fail = { λ h k s t body state after cause view i. harmless_on s t i };

    fn has(&self, body: usize) -> bool {
        body == 0
    }

    fn step(
        &mut self,
        alloc: Heap,
        _body: usize,
        caller: &mut Caller<'_, ()>,
        _state: &mut u64,
        _event: Event,
    ) -> Result<Answer, OutOfMemory> {
        self.take(alloc, caller.args())?;
        Ok(Answer::Return(ValList(Vec::new(alloc))))
    }
}
