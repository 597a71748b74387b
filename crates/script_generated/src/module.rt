ghost use Rattle.std.specs.Prelude.{◌≡◌, IfOk};
ghost use Rattle.script_generated.specs.Modules.{one_to_one, sums, one_page, generated_module};

use std::alloc::Global;
use wasm_syntax::{
    BinOp, Block, ConstExpr, EntityIndex, ExportDecl, FuncDecl, GlobalDecl, Instr, ModuleDecl,
    StoreOp,
};
use wasm_types::{
    EngineId, FuncType, GlobalType, Items, MemoryType, Mutability, OutOfMemory, Text, ValType,
};

/// The type from a number to a number.
fn one_to_one(alloc: Global) -> Result<FuncType, OutOfMemory>
    ensures { IfOk result (λ made. made ≡ one_to_one) }
{
    match FuncType::try_new(alloc, EngineId(1), &[ValType::I32], &[ValType::I32]) {
        Ok(ty) => Ok(ty),
        Err(_) => Err(OutOfMemory),
    }
}

/// The function that adds its argument to the global, stores the sum at four times the argument, and returns it.
fn sums(alloc: Global) -> Result<FuncDecl, OutOfMemory>
    ensures { IfOk result (λ made. made ≡ sums) }
{
    let code = [
        Instr::GlobalGet(0),
        Instr::LocalGet(0),
        Instr::Binary(BinOp::I32Add),
        Instr::GlobalSet(0),
        Instr::LocalGet(0),
        Instr::Const32(4),
        Instr::Binary(BinOp::I32Mul),
        Instr::GlobalGet(0),
        Instr::Store {
            op: StoreOp::I32Store,
            memory: 0,
            offset: 0,
        },
        Instr::GlobalGet(0),
    ];
    let body = Block {
        ty: 0,
        instrs: Items(Vec::from_slice(alloc, &code)?),
    };
    Ok(FuncDecl {
        ty: 0,
        locals: Items(Vec::new(alloc)),
        blocks: Items(vec![in alloc; body]?),
        targets: Items(Vec::new(alloc)),
    })
}

fn export(alloc: Global, name: &str, entity: EntityIndex) -> Result<ExportDecl, OutOfMemory>
    ensures { IfOk result (λ made. made ≡ record { name = name.now; entity = entity }) }
{
    Ok(ExportDecl {
        name: Text(String::from_str(alloc, name)?),
        entity,
    })
}

/// The type of the memory.
fn one_page() -> MemoryType
    ensures { result ≡ one_page }
{
    match MemoryType::new(1, None, 16) {
        Ok(ty) => ty,
        Err(_) => unreachable!(),
    }
}

/// The module of generated sessions.
pub(crate) fn generated_module(alloc: Global) -> Result<ModuleDecl, OutOfMemory>
    ensures { IfOk result (λ made. made ≡ generated_module) }
{
    let sum = GlobalDecl {
        ty: GlobalType::new(ValType::I32, Mutability::Var),
        init: ConstExpr::I32(0),
    };
    let f = export(alloc, "f", EntityIndex::Func(0))?;
    let m = export(alloc, "m", EntityIndex::Memory(0))?;
    Ok(ModuleDecl {
        engine: EngineId(1),
        number: 0,
        types: Items(vec![in alloc; one_to_one(alloc)?]?),
        imports: Items(Vec::new(alloc)),
        functions: Items(vec![in alloc; sums(alloc)?]?),
        tables: Items(Vec::new(alloc)),
        memories: Items(vec![in alloc; one_page()]?),
        globals: Items(vec![in alloc; sum]?),
        tags: Items(Vec::new(alloc)),
        exports: Items(vec![in alloc; f, m]?),
        elements: Items(Vec::new(alloc)),
        datas: Items(Vec::new(alloc)),
        start: None,
    })
}
