ghost use Rattle.std.specs.Prelude.{◌≡◌};
ghost use Rattle.spec_machine.specs.Machine.{guest, host};
ghost use Rattle.store_state.specs.Functions.{kind_behind};

use std::marker::Model;
use wasm_types::FuncType;
use wasm_values::Extern;

/// A function of a store, as code meets it.
#[derive(Clone, Copy)]
pub enum FunctionKind<'a> {
    /// One of an instance, and its number among the functions that the module defines.
    Guest {
        instance: usize,
        number: usize,
    },
    /// One of the host: its type, the number of its body, and the objects that were stored with it.
    Host {
        ty: &'a FuncType,
        body: usize,
        stored: &'a [Extern],
    },
}

#[derive(Drop)]
enum Kind {
    Guest {
        instance: usize,
        number: usize,
    },
    Host {
        ty: FuncType,
        body: usize,
        stored: Vec<Extern>,
    },
}

/// A function of a store.
pub struct Function {
    kind: Kind,
}

// Written out, so that the crates above do not prove it again of all that is in it.
impl Drop for Function {
    fn drop(self) {
        let Function { kind: _kind } = self;
    }
}

impl Model for Function {
    ghost use Rattle.spec_machine.specs.Machine.{Function};
    ghost use Rattle.store_state.specs.Codes.{function_code};
    ghost use Rattle.store_state.specs.Kinds.{function_of};

    ghost Value = { Function };

    ghost coded = { function_code };

    ghost view = { λ f. function_of f.kind };
}

impl Function {
    /// A function of an instance, both by their numbers.
    pub fn guest(instance: usize, number: usize) -> Function
        ensures { result ≡ guest instance number }
    {
        Function {
            kind: Kind::Guest { instance, number },
        }
    }

    /// A function of the host.
    pub fn host(ty: FuncType, body: usize, stored: Vec<Extern>) -> Function
        ensures { result ≡ host ty body stored.items }
    {
        Function {
            kind: Kind::Host { ty, body, stored },
        }
    }

    /// What it is.
    pub fn kind(&self) -> FunctionKind<'_>
        ensures { kind_behind result ≡ self.now }
    {
        match &self.kind {
            Kind::Guest { instance, number } => FunctionKind::Guest {
                instance: *instance,
                number: *number,
            },
            Kind::Host { ty, body, stored } => FunctionKind::Host {
                ty,
                body: *body,
                stored: stored.as_slice(),
            },
        }
    }
}
