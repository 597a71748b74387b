ghost use Rattle.std.specs.Prelude.{◌≡◌, length, None, Ok, IfOk, IfErr, OnOk, option_map};
ghost use Rattle.wasm_syntax.specs.FirstBroken.{broken, first_broken};
ghost use Rattle.wasm_syntax.specs.declared.module_fault.Rule.TheVariants as rule;
ghost use Rattle.wasm_module.specs.Exports.{entries, entity_named};
ghost use Rattle.wasm_module.specs.Faults.{Tells, place_of};
ghost use Rattle.wasm_module.specs.Kept.{kept_of};

use crate::exports::{Exports, by_name};
use crate::kept::Kept;
use crate::modules::Module;
use module_rules::{body, constants, element, engine, index, local, shape, size, start};
use module_typing::Spaces;
use std::alloc::Global;
use wasm_syntax::{ModuleDecl, ModuleFault, Place, Rule};
use wasm_types::OutOfMemory;

// A rule that is kept, or the fault that names it and the first place where it is broken.
fn kept(rule: Rule, broken: Option<Place>) -> Result<(), ModuleFault>
    ensures kept { OnOk result (broken ≡ None) }
    ensures fault { IfErr result (λ fault.
        Tells fault (option_map (λ place. (rule, place)) broken)) }
{
    match broken {
        None => Ok(()),
        Some(place) => Err(ModuleFault::InvalidModule { rule, place }),
    }
}

// What the test of a rule made where it is kept, or the fault that names it and the first place where it is broken.
fn made<T>(rule: Rule, tested: Result<T, Place>) -> Result<T, ModuleFault>
    ensures made { IfOk result (λ made. tested ≡ Ok made) }
    ensures fault { IfErr result (λ fault.
        Tells fault (option_map (λ place. (rule, place)) (place_of tested))) }
{
    match tested {
        Ok(made) => Ok(made),
        Err(place) => Err(ModuleFault::InvalidModule { rule, place }),
    }
}

// The greatest heights of the functions' operands, or the first place where code is not well typed.
fn heights(alloc: Global, spaces: &Spaces<'_>) -> Result<Result<Vec<u32>, Place>, OutOfMemory>
    requires { broken rule.Size spaces.now.decl.now ≡ None }
    ensures heights { IfOk result (λ found. IfOk found (λ heights.
        length heights.items ≡ length spaces.now.decl.now.functions)) }
    ensures place { IfOk result (λ found. place_of found ≡ broken rule.Body spaces.now.decl.now) }
{
    let found = body(alloc, spaces)?;
    Ok(found)
}

// The exports by name, the greatest heights of the functions' operands, and the images that are kept, where each rule is kept.
fn checked(alloc: Global, decl: &ModuleDecl) -> Result<(Exports, Vec<u32>, Kept), ModuleFault>
    ensures kept { OnOk result (first_broken decl.now ≡ None) }
    ensures by_name { IfOk result (λ found. entity_named found.0 ≡ entity_named (entries decl.now.exports)) }
    ensures heights { IfOk result (λ found. length found.1.items ≡ length decl.now.functions) }
    ensures images { IfOk result (λ found. found.2 ≡ kept_of decl.now) }
    ensures broken { IfErr result (λ fault. Tells fault (first_broken decl.now)) }
{
    kept(Rule::Size, size(decl))?;
    kept(Rule::Engine, engine(decl))?;
    let spaces = Spaces::new(alloc, decl)?;
    kept(Rule::Index, index(&spaces))?;
    kept(Rule::Local, local(decl))?;
    kept(Rule::Shape, shape(alloc, decl)?)?;
    kept(Rule::Const, constants(&spaces))?;
    kept(Rule::Element, element(&spaces))?;
    let exports = made(Rule::ExportName, by_name(alloc, decl)?)?;
    kept(Rule::Start, start(&spaces))?;
    let heights = made(Rule::Body, heights(alloc, &spaces)?)?;
    let images = Kept::new(alloc, &spaces)?;
    Ok((exports, heights, images))
}

impl Module {
    /// The module of a declaration that keeps each rule.
    ///
    /// `InvalidModule` exactly where a rule is broken: it names the first one in the order of `Rule`, and where it is
    /// broken first, in the order of `Part`, then of the items. The declaration is dropped then. `OutOfMemory` where the
    /// allocator had no memory left, and for no other cause.
    ///
    /// The time is linear in the declaration, times the logarithm of their number for export names, and times the operands that
    /// an instruction takes or leaves: a call of a function with many parameters and results walks them all, and so does each
    /// label of a branch table whose block has them. Branch tables that name one long list of labels walk it once each, and
    /// code that moves references to a large function type from one place to another compares its parts each time
    /// (`body_is_typed` of `module_typing` says more of both).
    ///
    /// The images that leading segments leave are made for a moment, up to 2^24 bytes and 1,000,000 cells. The module keeps
    /// those that are dense: of its memories with at most 8 bytes for each that its data segments hold, of its tables with at
    /// most 8 cells for each item of its element segments, all together.
    pub fn validate(alloc: Global, decl: ModuleDecl) -> Result<Module, ModuleFault>
        ensures holds { IfOk result (λ made. made ≡ decl) }
        ensures valid { OnOk result (first_broken decl ≡ None) }
        ensures broken { IfErr result (λ fault. Tells fault (first_broken decl)) }
    {
        let (exports, heights, images) = checked(alloc, &decl)?;
        let made = Module::new(alloc, decl, exports, heights, images)?;
        Ok(made)
    }
}
