ghost use Rattle.std.specs.Prelude.{◌≡◌, ◌≤◌, ◌^◌, [], length};
ghost use Rattle.binary_code.specs.Bodies.{locals_in};

use std::alloc::Global;
use std::marker::Model;
use wasm_syntax::FuncDecl;
use wasm_types::Items;

/// The functions of a module, which have at most 2^24 locals in all. Contracts see their list.
#[derive(Drop)]
pub(crate) struct Bodies {
    functions: Items<FuncDecl>,
}

impl Model for Bodies {
    ghost use Rattle.std.specs.Coded.{coded_list};
    ghost use Rattle.std.specs.Prelude.{List, ◌≤◌, ◌^◌};
    ghost use Rattle.wasm_syntax.specs.contracts.declarations.FuncDecl as func_decl;
    ghost use Rattle.wasm_syntax.specs.declared.declarations.FuncDecl.{FuncDecl};
    ghost use Rattle.binary_code.specs.Bodies.{locals_in};

    ghost Value = { List FuncDecl };

    ghost coded = { coded_list func_decl.the_row.coded };

    ghost view = { λ b. b.functions };

    ghost invariant = { λ b. locals_in b.functions ≤ 2 ^ 24 };
}

impl Bodies {
    /// Of no function.
    pub(crate) fn none(alloc: Global) -> Bodies
        ensures { result ≡ [] }
    {
        Bodies {
            functions: Items(Vec::new(alloc)),
        }
    }

    /// Of these functions.
    pub(crate) fn new(functions: Items<FuncDecl>) -> Bodies
        requires { locals_in functions ≤ 2 ^ 24 }
        ensures { result ≡ functions }
    {
        Bodies { functions }
    }

    /// How many functions there are.
    pub(crate) fn len(&self) -> usize
        ensures { result ≡ length self.now }
    {
        self.functions.len()
    }

    /// The functions; no memory is taken.
    pub(crate) fn into_items(self) -> Items<FuncDecl>
        ensures same { result ≡ self }
        ensures locals { locals_in result ≤ 2 ^ 24 }
    {
        self.functions
    }
}
