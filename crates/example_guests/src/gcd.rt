//! A host that declares a module of one function as data, makes an instance of it, and calls the function.

use crate::guests::{call, instance_of};
use std::alloc::Global as Heap;
use wasm_embedding::{
    BinOp, Block, ENGINE, EntityIndex, ExportDecl, Fault, FuncDecl, FuncType, FuncTyped,
    InstanceTyped, Instr, Items, Module, ModuleDecl, Refusal, Store, StoreIds, Text, TypedFunc,
    ValType, plain_store,
};

/// The types of the module: of the function, and of a block that takes and leaves nothing.
const PAIR_TO_ONE: u32 = 0;

const NOTHING: u32 = 1;

fn types(alloc: Heap) -> Result<Vec<FuncType>, Fault> {
    let pair = [ValType::I32, ValType::I32];
    let pair_to_one = FuncType::try_new(alloc, ENGINE, &pair, &[ValType::I32])?;
    let nothing = FuncType::try_new(alloc, ENGINE, &[], &[])?;
    Ok(vec![in alloc; pair_to_one, nothing]?)
}

fn block(alloc: Heap, ty: u32, code: &[Instr]) -> Result<Block, Fault> {
    let instrs = Items(Vec::from_slice(alloc, code)?);
    Ok(Block { ty, instrs })
}

/// The greatest common divisor of two numbers, as Euclid found it: as long as the second one is not 0, the first becomes
/// the second, and the second the remainder of the two. A block is named by its number, and the first is the body.
fn gcd(alloc: Heap) -> Result<FuncDecl, Fault> {
    let body = block(alloc, PAIR_TO_ONE, &[Instr::Loop(1), Instr::LocalGet(0)])?;
    let round = block(alloc, NOTHING, &[Instr::LocalGet(1), Instr::If(2, 3)])?;
    let step = [
        Instr::LocalGet(0),
        Instr::LocalGet(1),
        Instr::Binary(BinOp::I32RemU),
        Instr::LocalGet(1),
        Instr::LocalSet(0),
        Instr::LocalSet(1),
        Instr::Br(1),
    ];
    let step = block(alloc, NOTHING, &step)?;
    let end = block(alloc, NOTHING, &[])?;
    Ok(FuncDecl {
        ty: PAIR_TO_ONE,
        locals: Items(Vec::new(alloc)),
        blocks: Items(vec![in alloc; body, round, step, end]?),
        targets: Items(Vec::new(alloc)),
    })
}

/// A module that exports the function.
fn declare(alloc: Heap) -> Result<ModuleDecl, Fault> {
    let export = ExportDecl {
        name: Text(String::from_str(alloc, "gcd")?),
        entity: EntityIndex::Func(0),
    };
    Ok(ModuleDecl {
        engine: ENGINE,
        number: 0,
        types: Items(types(alloc)?),
        imports: Items(Vec::new(alloc)),
        functions: Items(vec![in alloc; gcd(alloc)?]?),
        tables: Items(Vec::new(alloc)),
        memories: Items(Vec::new(alloc)),
        globals: Items(Vec::new(alloc)),
        tags: Items(Vec::new(alloc)),
        exports: Items(vec![in alloc; export]?),
        elements: Items(Vec::new(alloc)),
        datas: Items(Vec::new(alloc)),
        start: None,
    })
}

/// What the host saw.
#[derive(Debug, Drop)]
struct Seen {
    divisor: i32,
    denied: Option<Refusal>,
}

/// Makes an instance, and calls its function.
fn see(store: &mut Store<()>, gcd_module: &Module) -> Result<Seen, Fault> {
    let instance = instance_of(store, gcd_module, &[])?;
    let gcd: TypedFunc<(i32, i32), i32> = instance.get_typed_func(store, "gcd")?;
    Ok(Seen {
        divisor: call(store, &gcd, (1_071, 462))?,
        // As a function of other types there is none.
        denied: gcd.func().typed::<(i32, i64), i32>(store).err(),
    })
}

/// Makes a store, and works in it. A call gives the store up in the end: a crate that drops one itself checks the
/// destructors of all its parts.
fn run(alloc: Heap, gcd_module: &Module) -> Result<Seen, Fault> {
    let mut store = plain_store(alloc, &mut StoreIds::new(), ());
    let seen = see(&mut store, gcd_module);
    store.into_data();
    seen
}

pub(crate) fn show(rt: &impl Print, alloc: Heap) -> Result<(), Fault> {
    let seen = run(alloc, &Module::validate(alloc, declare(alloc)?)?)?;
    println!(rt; "gcd\n{seen:?}")?;
    Ok(())
}
