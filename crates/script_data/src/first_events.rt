ghost use Rattle.std.specs.Prelude.{◌≡◌, [], IfOk};
ghost use Rattle.script_data.specs.Events.{with_event};

use std::alloc::Global;
use std::marker::Model;
use wasm_meter::CallHook;
use wasm_types::OutOfMemory;

/// How many events are kept.
const MOST: usize = 64;

/// The first 64 events that a hook was told of. There is room for them from the first on.
#[derive(Drop)]
pub(crate) struct FirstEvents {
    items: Vec<CallHook>,
}

impl Model for FirstEvents {
    ghost use Rattle.std.specs.Prelude.{◌≤◌, List, vec_capacity};
    ghost use Rattle.wasm_meter.specs.declared.call_hook.CallHook.{CallHook as Event};

    ghost Value = { List Event };

    ghost view = { λ e. e.items.items };

    ghost invariant = { λ e. 64 ≤ vec_capacity e.items };
}

impl FirstEvents {
    /// No event yet.
    pub(crate) fn try_new(alloc: Global) -> Result<FirstEvents, OutOfMemory>
        ensures { IfOk result (λ made. made ≡ []) }
    {
        let items = Vec::with_capacity(alloc, MOST)?;
        Ok(FirstEvents { items })
    }

    /// Keeps an event where there are not 64 yet.
    pub(crate) fn add(&mut self, event: CallHook)
        ensures { self.new ≡ with_event self.old event }
    {
        if self.items.len() < MOST {
            self.items.push_reserved(event);
        }
    }

    /// The events in order, lent.
    pub(crate) fn as_slice(&self) -> &[CallHook]
        ensures { result.now ≡ self.now }
    {
        self.items.as_slice()
    }
}
