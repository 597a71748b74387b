use super::declarations::{ENGINE, exporting, with_code};
use std::alloc::Global;
use std::process::Abort;
use std::test::Fail;
use wasm_module::{EntityIndex, Instr, Module, ModuleDecl};
use wasm_types::ValType;

fn made(rt: &impl Abort, alloc: Global, decl: ModuleDecl) -> Module {
    let Ok(made) = Module::validate(alloc, decl) else {
        panic!(rt; "no module")
    };
    made
}

fn shared(rt: &impl Abort, made: &Module) -> Module {
    let Ok(shared) = made.clone() else {
        panic!(rt; "no room for a sharer")
    };
    shared
}

fn check_export(rt: &impl Abort, made: &Module) {
    let Some(found) = made.get_export_index("f") else {
        panic!(rt; "no export")
    };
    assert_eq!(rt; found.module, 7);
    assert!(rt; found.entity == EntityIndex::Func(0));
}

#[test]
fn a_module_is_made_and_shared(rt: HostRuntime) -> Result<(), Fail> {
    let code = [
        Instr::LocalGet(0),
        Instr::LocalGet(0),
        Instr::Drop,
        Instr::Drop,
    ];
    let decl = with_code(rt.alloc(), &[ValType::I32], &code)?;
    let decl = exporting(rt.alloc(), decl, "f")?;
    let made = made(&rt, rt.alloc(), decl);
    let shared = shared(&rt, &made);
    assert!(rt; shared.engine() == ENGINE);
    assert_eq!(rt; shared.decl().functions.len(), 1);
    assert_eq!(rt; shared.operand_heights(), &[2][..]);
    check_export(&rt, &shared);
    Ok(())
}
