ghost use Rattle.std.specs.Prelude.{◌≡◌, ◌≤◌, [], is_none, length, None, Some, IfOk, IfErr, OnOk};
ghost use Rattle.std.specs.Map.{update};
ghost use Rattle.std.specs.Str.{bytes_eq};
ghost use Rattle.wasm_syntax.specs.FirstBroken.{broken, first_from};
ghost use Rattle.wasm_syntax.specs.declared.module_fault.Rule.TheVariants as rule;
ghost use Rattle.wasm_module.specs.Faults.{place_of};
ghost use Rattle.wasm_module.specs.Exports.{entries, entity_named, named_before};

use std::alloc::Global;
use std::collections::BTreeMap;
use std::marker::Model;
use wasm_syntax::{EntityIndex, ExportDecl, ModuleDecl, Part, Place};
use wasm_types::OutOfMemory;

/// The exports of a module by name. The names are compared, so that none that a module chooses makes a look-up long.
/// Contracts see the names, each with what it names, in the order of their bytes.
#[derive(Drop)]
pub(crate) struct Exports {
    by_name: BTreeMap<String, EntityIndex>,
}

impl Model for Exports {
    ghost use Rattle.std.specs.Prelude.{List, map, string_bytes};
    ghost use Rattle.wasm_module.specs.Exports.{Entry};

    ghost Value = { List Entry };

    ghost view = { λ e. map (λ p. (string_bytes p.0, p.1)) e.by_name.entries };
}

impl Exports {
    fn new(alloc: Global) -> Exports
        ensures { result ≡ [] }
    {
        Exports {
            by_name: BTreeMap::new(alloc),
        }
    }

    // Adds an export, or answers `false` where its name is there.
    fn insert(
        &mut self,
        alloc: Global,
        name: &str,
        entity: EntityIndex,
    ) -> Result<bool, OutOfMemory>
        ensures new { IfOk result (λ is_new. is_new ≡ is_none (entity_named self.old name.now)) }
        ensures added { OnOk result
            (entity_named self.new ≡ update bytes_eq (entity_named self.old) name.now (Some entity)) }
    {
        let name = String::from_str(alloc, name)?;
        let before = self.by_name.insert(name, entity)?;
        Ok(before.is_none())
    }

    // What the export of this name names.
    pub(crate) fn get(&self, name: &str) -> Option<EntityIndex>
        ensures { result ≡ entity_named self.now name.now }
    {
        self.by_name.get(name).copied()
    }
}

// The exports by name, or the number of the first that has the name of an earlier one.
fn exports_by_name(
    alloc: Global,
    exports: &[ExportDecl],
) -> Result<Result<Exports, u32>, OutOfMemory>
    requires { length exports.now ≤ 1000000 }
    ensures by_name { IfOk result (λ found. IfOk found (λ by_name.
        entity_named by_name ≡ entity_named (entries exports.now))) }
    ensures distinct { IfOk result (λ found.
        OnOk found (first_from (named_before exports.now) 0 exports.now ≡ None)) }
    ensures twice { IfOk result (λ found. IfErr found (λ number.
        first_from (named_before exports.now) 0 exports.now ≡ Some number)) }
{
    let mut by_name = Exports::new(alloc);
    let mut number = 0u32;
    let mut rest = exports;
    while let Some((export, tail)) = rest.split_first() {
        if !by_name.insert(alloc, export.name.as_str(), export.entity)? {
            return Ok(Err(number));
        }
        number += 1;
        rest = tail;
    }
    Ok(Ok(by_name))
}

/// The exports of a declaration by name, or the first place where an export has the name of an earlier one.
pub(crate) fn by_name(
    alloc: Global,
    decl: &ModuleDecl,
) -> Result<Result<Exports, Place>, OutOfMemory>
    requires { broken rule.Size decl.now ≡ None }
    ensures by_name { IfOk result (λ found. IfOk found (λ by_name.
        entity_named by_name ≡ entity_named (entries decl.now.exports))) }
    ensures place { IfOk result (λ found. place_of found ≡ broken rule.ExportName decl.now) }
{
    match exports_by_name(alloc, decl.exports.as_slice())? {
        Ok(exports) => Ok(Ok(exports)),
        Err(item) => Ok(Err(Place {
            part: Part::Exports,
            item,
        })),
    }
}
