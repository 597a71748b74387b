ghost use Rattle.std.specs.Prelude.{◌≡◌, true, None};
ghost use Rattle.wasm_types.specs.Each.{Each};
ghost use Rattle.wasm_types.specs.FunctionRules.{IsSound};
ghost use Rattle.wasm_types.specs.MemoryTypes.{are_memory_limits};
ghost use Rattle.wasm_types.specs.SoundTypes.{IsRefSound, IsValSound, IsTableSound, IsGlobalSound, IsExternSound};
ghost use Rattle.wasm_syntax.specs.FirstBroken.{first_broken};
ghost use Rattle.wasm_syntax.specs.Modules.{IsModule};

use wasm_syntax::{ElemDecl, FuncDecl, GlobalDecl, ImportDecl, ModuleDecl, TableDecl};
use wasm_types::{FuncType, MemoryType, ValType};

// An item of a declaration with types in it, each of which keeps the rules that its constructor tests.
trait Typed {
    ghost keeps: { Self → Type 0 };

    // Does nothing when it runs: it tells what the item keeps.
    fn tell(&self)
        ensures { keeps self.now };
}

// Each item of a list keeps the rules.
fn each<T: Typed>(items: &[T])
    ensures { Each items.now T.keeps }
{
    let mut rest = items;
    while let [item, tail @ ..] = rest {
        item.tell();
        rest = tail;
    }
}

impl Typed for FuncType {
    ghost use Rattle.wasm_types.specs.FunctionRules.{IsSound};

    ghost keeps = { IsSound };

    fn tell(&self) {
        self.keeps_rules();
    }
}

impl Typed for ImportDecl {
    ghost use Rattle.wasm_types.specs.SoundTypes.{IsExternSound};

    ghost keeps = { λ i. IsExternSound i.ty };

    fn tell(&self) {
        self.ty.keeps_rules();
    }
}

impl Typed for ValType {
    ghost use Rattle.wasm_types.specs.SoundTypes.{IsValSound};

    ghost keeps = { IsValSound };

    fn tell(&self) {
        self.keeps_rules();
    }
}

impl Typed for FuncDecl {
    ghost use Rattle.wasm_types.specs.Each.{Each};
    ghost use Rattle.wasm_types.specs.SoundTypes.{IsValSound};

    ghost keeps = { λ f. Each f.locals IsValSound };

    fn tell(&self) {
        each(self.locals.as_slice());
    }
}

impl Typed for TableDecl {
    ghost use Rattle.wasm_types.specs.SoundTypes.{IsTableSound};

    ghost keeps = { λ t. IsTableSound t.ty };

    fn tell(&self) {
        self.ty.keeps_rules();
    }
}

impl Typed for MemoryType {
    ghost use Rattle.std.specs.Prelude.{◌≡◌, true};
    ghost use Rattle.wasm_types.specs.MemoryTypes.{are_memory_limits};

    ghost keeps = { λ t. are_memory_limits t ≡ true };

    fn tell(&self) {
        self.keeps_limits();
    }
}

impl Typed for GlobalDecl {
    ghost use Rattle.wasm_types.specs.SoundTypes.{IsGlobalSound};

    ghost keeps = { λ g. IsGlobalSound g.ty };

    fn tell(&self) {
        self.ty.keeps_rules();
    }
}

impl Typed for ElemDecl {
    ghost use Rattle.wasm_types.specs.SoundTypes.{IsRefSound};

    ghost keeps = { λ s. IsRefSound s.ty };

    fn tell(&self) {
        self.ty.keeps_rules();
    }
}

// In each item of a declaration every type is a type.
fn types_are(decl: &ModuleDecl)
    ensures types { Each decl.now.types IsSound }
    ensures imports { Each decl.now.imports (λ i. IsExternSound i.ty) }
    ensures locals { Each decl.now.functions (λ f. Each f.locals IsValSound) }
    ensures tables { Each decl.now.tables (λ t. IsTableSound t.ty) }
    ensures memories { Each decl.now.memories (λ t. are_memory_limits t ≡ true) }
    ensures globals { Each decl.now.globals (λ g. IsGlobalSound g.ty) }
    ensures elements { Each decl.now.elements (λ s. IsRefSound s.ty) }
{
    each(decl.types.as_slice());
    each(decl.imports.as_slice());
    each(decl.functions.as_slice());
    each(decl.tables.as_slice());
    each(decl.memories.as_slice());
    each(decl.globals.as_slice());
    each(decl.elements.as_slice());
}

// A declaration that keeps each rule is a module. It tells this, and does nothing when it runs.
pub(crate) fn is_module(decl: &ModuleDecl)
    requires { first_broken decl.now ≡ None }
    ensures { IsModule decl.now }
{
    types_are(decl);
}
