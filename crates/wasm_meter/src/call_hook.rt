ghost use Rattle.std.specs.Prelude.{◌≡◌};
ghost use Rattle.wasm_meter.specs.CallHooks.{enters_host, exits_host};

/// A border between host and guest code that a call passes.
#[derive(Clone, Copy)]
pub enum CallHook {
    /// The host is about to call a function.
    CallingWasm,
    /// A function that the host called is over.
    ReturningFromWasm,
    /// A host function is about to run.
    CallingHost,
    /// A host function is over.
    ReturningFromHost,
}

impl CallHook {
    /// Whether host code runs next: at `ReturningFromWasm` and `CallingHost`.
    pub fn entering_host(&self) -> bool
        ensures { result ≡ enters_host self.now }
    {
        match self {
            CallHook::ReturningFromWasm | CallHook::CallingHost => true,
            CallHook::CallingWasm | CallHook::ReturningFromHost => false,
        }
    }

    /// Whether host code ran last: at `ReturningFromHost` and `CallingWasm`.
    pub fn exiting_host(&self) -> bool
        ensures { result ≡ exits_host self.now }
    {
        match self {
            CallHook::ReturningFromHost | CallHook::CallingWasm => true,
            CallHook::ReturningFromWasm | CallHook::CallingHost => false,
        }
    }
}
