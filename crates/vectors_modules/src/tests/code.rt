use super::declarations::{ENGINE, block, one};
use module_typing::{Spaces, body_is_typed};
use std::alloc::{AllocError, Global};
use std::mem::size_of;
use std::process::Abort;
use std::test::Fail;
use wasm_syntax::{
    BinOp, Block, ConstExpr, DataDecl, DataMode, ElemDecl, ElemMode, FuncDecl, GlobalDecl, Instr,
    LoadOp, ModuleDecl, StoreOp, TableDecl, TargetList, UnOp,
};
use wasm_types::{
    ByteList, FuncType, GlobalType, HeapTopType, HeapType, Items, MemoryType, Mutability, RefType,
    TableType, TypeFault, ValType,
};

// What puts an `i32`, an `i64`, a null function and a null external on the stack, and what takes each of them off.
const ONE: Instr = Instr::Const32(1);

const LONG: Instr = Instr::Const64(1);

const FUNC: Instr = Instr::RefNull(HeapTopType::Func);

const EXTERN: Instr = Instr::RefNull(HeapTopType::Extern);

const TAKE_ONE: Instr = Instr::LocalSet(0);

const TAKE_LONG: Instr = Instr::LocalSet(1);

const TAKE_FUNC: Instr = Instr::LocalSet(2);

const TAKE_EXTERN: Instr = Instr::LocalSet(3);

/// Eight bits from a memory and into it, at the last offset, and from one that is not there.
const LOAD: Instr = Instr::Load {
    op: LoadOp::I64Load8S,
    memory: 0,
    offset: 4294967295,
};

const LOAD_FROM_NONE: Instr = Instr::Load {
    op: LoadOp::I64Load8S,
    memory: 1,
    offset: 4294967295,
};

const STORE: Instr = Instr::Store {
    op: StoreOp::I32Store8,
    memory: 0,
    offset: 4294967295,
};

/// The types `() -> ()`, `() -> (i32)`, `(i32) -> (i64)` and `(i32) -> ()`.
fn types(alloc: Global) -> Result<Items<FuncType>, Fail> {
    let mut types = Vec::new(alloc);
    types.push(FuncType::try_new(alloc, ENGINE, &[], &[])?)?;
    types.push(FuncType::try_new(alloc, ENGINE, &[], &[ValType::I32])?)?;
    types.push(FuncType::try_new(alloc, ENGINE, &[ValType::I32], &[ValType::I64])?)?;
    types.push(FuncType::try_new(alloc, ENGINE, &[ValType::I32], &[])?)?;
    Ok(Items(types))
}

fn table(heap_type: HeapType, top: HeapTopType) -> Result<TableDecl, TypeFault> {
    let ty = TableType::new(RefType::new(true, heap_type), 1, None)?;
    let init = ConstExpr::RefNull(top);
    Ok(TableDecl { ty, init })
}

/// Tables of functions, of externals and of null functions alone.
fn tables(alloc: Global) -> Result<Items<TableDecl>, Fail> {
    let mut tables = Vec::new(alloc);
    tables.push(table(HeapType::Func, HeapTopType::Func)?)?;
    tables.push(table(HeapType::Extern, HeapTopType::Extern)?)?;
    tables.push(table(HeapType::NoFunc, HeapTopType::Func)?)?;
    Ok(Items(tables))
}

/// A constant global of type `i32`, and a variable one of type `i64`.
fn globals(alloc: Global) -> Result<Items<GlobalDecl>, AllocError> {
    let mut globals = Vec::new(alloc);
    globals.push(GlobalDecl {
        ty: GlobalType::new(ValType::I32, Mutability::Const),
        init: ConstExpr::I32(0),
    })?;
    globals.push(GlobalDecl {
        ty: GlobalType::new(ValType::I64, Mutability::Var),
        init: ConstExpr::I64(0),
    })?;
    Ok(Items(globals))
}

/// The body, and behind it the blocks that the rows name.
fn blocks(alloc: Global, body: Block) -> Result<Items<Block>, AllocError> {
    let mut blocks = Vec::new(alloc);
    blocks.push(body)?;
    blocks.push(block(alloc, 1, &[ONE])?)?;
    blocks.push(block(alloc, 0, &[Instr::Drop])?)?;
    blocks.push(block(alloc, 1, &[Instr::Br(0)])?)?;
    blocks.push(block(alloc, 3, &[Instr::Drop, Instr::Br(0)])?)?;
    blocks.push(block(alloc, 1, &[ONE, ONE, TAKE_ONE])?)?;
    Ok(Items(blocks))
}

fn target_list(alloc: Global, labels: &[u32]) -> Result<TargetList, AllocError> {
    let mut list = Vec::new(alloc);
    list.extend_from_slice(labels)?;
    Ok(TargetList(list))
}

/// A list whose label is there, and one whose last is not.
fn targets(alloc: Global) -> Result<Items<TargetList>, AllocError> {
    let mut targets = Vec::new(alloc);
    targets.push(target_list(alloc, &[0])?)?;
    targets.push(target_list(alloc, &[0, 1])?)?;
    Ok(Items(targets))
}

/// An `i32`, an `i64`, a function and an external.
fn locals(alloc: Global) -> Result<Items<ValType>, AllocError> {
    let mut locals = Vec::new(alloc);
    locals.push(ValType::I32)?;
    locals.push(ValType::I64)?;
    locals.push(ValType::funcref())?;
    locals.push(ValType::externref())?;
    Ok(Items(locals))
}

fn function(alloc: Global, ty: u32, code: &[Instr]) -> Result<FuncDecl, AllocError> {
    let body = block(alloc, ty, code)?;
    Ok(FuncDecl {
        ty,
        locals: locals(alloc)?,
        blocks: blocks(alloc, body)?,
        targets: targets(alloc)?,
    })
}

fn elements(alloc: Global) -> Result<Items<ElemDecl>, AllocError> {
    let segment = ElemDecl {
        ty: RefType::new(true, HeapType::Func),
        mode: ElemMode::Passive,
        items: Items(Vec::new(alloc)),
    };
    Ok(Items(one(alloc, segment)?))
}

fn datas(alloc: Global) -> Result<Items<DataDecl>, AllocError> {
    let segment = DataDecl {
        mode: DataMode::Passive,
        bytes: ByteList(Vec::new(alloc)),
    };
    Ok(Items(one(alloc, segment)?))
}

fn functions(alloc: Global) -> Result<Items<FuncDecl>, AllocError> {
    let function = function(alloc, 2, &[LONG])?;
    Ok(Items(one(alloc, function)?))
}

fn memories(alloc: Global) -> Result<Items<MemoryType>, Fail> {
    let ty = MemoryType::new(1, None, 16)?;
    Ok(Items(one(alloc, ty)?))
}

/// A module with one function, of type `(i32) -> (i64)`, one memory, one segment of each kind, and the above.
fn declaration(alloc: Global) -> Result<ModuleDecl, Fail> {
    Ok(ModuleDecl {
        engine: ENGINE,
        number: 0,
        types: types(alloc)?,
        imports: Items(Vec::new(alloc)),
        functions: functions(alloc)?,
        tables: tables(alloc)?,
        memories: memories(alloc)?,
        globals: globals(alloc)?,
        tags: Items(Vec::new(alloc)),
        exports: Items(Vec::new(alloc)),
        elements: elements(alloc)?,
        datas: datas(alloc)?,
        start: None,
    })
}

/// The greatest number of operands of a body of the type of this number, if it is well typed.
fn height(alloc: Global, decl: &ModuleDecl, ty: u32, code: &[Instr]) -> Result<Option<u32>, Fail> {
    let spaces = Spaces::new(alloc, decl)?;
    let function = function(alloc, ty, code)?;
    let height = body_is_typed(alloc, &spaces, &function)?;
    Ok(height)
}

/// A body, and its greatest number of operands, if it is well typed.
type Row = (&'static [Instr], Option<u32>);

const CONTROL: [Row; 20] = [
    (&[Instr::Unreachable, Instr::Drop], Some(0)),
    (&[Instr::Drop, Instr::Unreachable], None),
    (&[Instr::Nop], Some(0)),
    (&[Instr::Nop, Instr::Drop], None),
    (&[Instr::Block(1), TAKE_ONE], Some(1)),
    (&[ONE, Instr::Block(2)], None),
    (&[ONE, Instr::Block(5), Instr::Drop, Instr::Drop], Some(3)),
    (&[Instr::Block(3), TAKE_ONE], None),
    (&[Instr::Loop(3), TAKE_ONE], Some(1)),
    (&[ONE, Instr::Block(4)], Some(1)),
    (&[ONE, Instr::Loop(4)], None),
    (&[ONE, Instr::If(1, 5), TAKE_ONE], Some(2)),
    (&[ONE, Instr::If(1, 2), TAKE_ONE], None),
    (&[Instr::If(1, 5), TAKE_ONE], None),
    (&[ONE, Instr::Br(0), Instr::Drop], Some(1)),
    (&[Instr::Br(1)], None),
    (&[ONE, Instr::BrIf(0)], Some(1)),
    (&[LONG, Instr::BrIf(0)], None),
    (&[ONE, Instr::BrTable(0), Instr::Drop], Some(1)),
    (&[ONE, Instr::BrTable(1)], None),
];

const LEAVING: [Row; 7] = [
    (&[LONG, ONE, Instr::Return, Instr::Drop], Some(2)),
    (&[LONG, Instr::Return], None),
    (&[ONE, ONE, Instr::BrIf(0)], Some(2)),
    (&[ONE, Instr::BrIf(0)], None),
    (&[ONE, ONE, Instr::BrTable(0)], Some(2)),
    (&[LONG, ONE, Instr::BrTable(0)], None),
    (&[ONE, ONE], None),
];

const VARIABLES: [Row; 26] = [
    (&[ONE, Instr::Call(0), TAKE_LONG], Some(1)),
    (&[LONG, Instr::Call(0), TAKE_LONG], None),
    (
        &[ONE, ONE, Instr::CallIndirect { ty: 2, table: 0 }, TAKE_LONG],
        Some(2),
    ),
    (
        &[ONE, ONE, Instr::CallIndirect { ty: 2, table: 1 }, TAKE_LONG],
        None,
    ),
    (&[LONG, Instr::Drop], Some(1)),
    (&[Instr::Drop], None),
    (&[LONG, LONG, ONE, Instr::Select, TAKE_LONG], Some(3)),
    (&[FUNC, FUNC, ONE, Instr::Select, Instr::Drop], None),
    (&[Instr::LocalGet(1), TAKE_LONG], Some(1)),
    (&[Instr::LocalGet(4), Instr::Drop], None),
    (&[ONE, Instr::LocalSet(0)], Some(1)),
    (&[ONE, Instr::LocalSet(1)], None),
    (&[ONE, Instr::LocalTee(0), TAKE_ONE], Some(1)),
    (&[Instr::LocalTee(0), Instr::Drop], None),
    (&[Instr::GlobalGet(0), TAKE_ONE], Some(1)),
    (&[Instr::GlobalGet(2), Instr::Drop], None),
    (&[LONG, Instr::GlobalSet(1)], Some(1)),
    (&[ONE, Instr::GlobalSet(0)], None),
    (&[Instr::Const32(-1), TAKE_ONE], Some(1)),
    (&[Instr::Const32(-1), TAKE_LONG], None),
    (&[Instr::Const64(-1), TAKE_LONG], Some(1)),
    (&[Instr::Const64(-1), TAKE_ONE], None),
    (
        &[ONE, Instr::Unary(UnOp::I64ExtendI32S), TAKE_LONG],
        Some(1),
    ),
    (&[LONG, Instr::Unary(UnOp::I64ExtendI32S), TAKE_LONG], None),
    (
        &[LONG, LONG, Instr::Binary(BinOp::I64LtS), TAKE_ONE],
        Some(2),
    ),
    (&[LONG, ONE, Instr::Binary(BinOp::I64LtS), TAKE_ONE], None),
];

const MEMORY: [Row; 16] = [
    (&[ONE, LOAD, TAKE_LONG], Some(1)),
    (&[ONE, LOAD_FROM_NONE, TAKE_LONG], None),
    (&[ONE, ONE, STORE], Some(2)),
    (&[ONE, LONG, STORE], None),
    (&[Instr::MemorySize(0), TAKE_ONE], Some(1)),
    (&[Instr::MemorySize(1), TAKE_ONE], None),
    (&[ONE, Instr::MemoryGrow(0), TAKE_ONE], Some(1)),
    (&[LONG, Instr::MemoryGrow(0), TAKE_ONE], None),
    (&[ONE, ONE, ONE, Instr::MemoryFill(0)], Some(3)),
    (&[ONE, ONE, Instr::MemoryFill(0)], None),
    (
        &[ONE, ONE, ONE, Instr::MemoryCopy { dst: 0, src: 0 }],
        Some(3),
    ),
    (&[ONE, ONE, ONE, Instr::MemoryCopy { dst: 0, src: 1 }], None),
    (
        &[
            ONE,
            ONE,
            ONE,
            Instr::MemoryInit {
                memory: 0,
                segment: 0,
            },
        ],
        Some(3),
    ),
    (
        &[
            ONE,
            ONE,
            ONE,
            Instr::MemoryInit {
                memory: 0,
                segment: 1,
            },
        ],
        None,
    ),
    (&[Instr::DataDrop(0)], Some(0)),
    (&[Instr::DataDrop(1)], None),
];

const TABLES: [Row; 22] = [
    (&[Instr::RefNull(HeapTopType::Func), TAKE_FUNC], Some(1)),
    (&[Instr::RefNull(HeapTopType::Any), TAKE_EXTERN], None),
    (&[EXTERN, Instr::RefIsNull, TAKE_ONE], Some(1)),
    (&[ONE, Instr::RefIsNull, TAKE_ONE], None),
    (&[Instr::RefFunc(0), TAKE_FUNC], Some(1)),
    (&[Instr::RefFunc(1), TAKE_FUNC], None),
    (&[ONE, Instr::TableGet(1), TAKE_EXTERN], Some(1)),
    (&[ONE, Instr::TableGet(0), TAKE_EXTERN], None),
    (&[ONE, FUNC, Instr::TableSet(2)], Some(2)),
    (&[ONE, Instr::RefFunc(0), Instr::TableSet(2)], None),
    (&[Instr::TableSize(2), TAKE_ONE], Some(1)),
    (&[Instr::TableSize(3), TAKE_ONE], None),
    (&[FUNC, ONE, Instr::TableGrow(0), TAKE_ONE], Some(2)),
    (&[ONE, FUNC, Instr::TableGrow(0), TAKE_ONE], None),
    (&[ONE, EXTERN, ONE, Instr::TableFill(1)], Some(3)),
    (&[ONE, EXTERN, ONE, Instr::TableFill(0)], None),
    (
        &[ONE, ONE, ONE, Instr::TableCopy { dst: 0, src: 2 }],
        Some(3),
    ),
    (&[ONE, ONE, ONE, Instr::TableCopy { dst: 2, src: 0 }], None),
    (
        &[
            ONE,
            ONE,
            ONE,
            Instr::TableInit {
                table: 0,
                segment: 0,
            },
        ],
        Some(3),
    ),
    (
        &[
            ONE,
            ONE,
            ONE,
            Instr::TableInit {
                table: 1,
                segment: 0,
            },
        ],
        None,
    ),
    (&[Instr::ElemDrop(0)], Some(0)),
    (&[Instr::ElemDrop(1)], None),
];

/// What the bodies are about, the number of their type, and the bodies.
const BODIES: [(&str, u32, &[Row]); 5] = [
    ("control instructions", 0, &CONTROL),
    ("leaving with a result", 1, &LEAVING),
    ("calls, numbers and variables", 0, &VARIABLES),
    ("memory instructions", 0, &MEMORY),
    ("reference and table instructions", 0, &TABLES),
];

/// Each body of the type of this number has this greatest number of operands, or is badly typed.
fn check_bodies(
    rt: &impl Abort,
    alloc: Global,
    about: &str,
    ty: u32,
    table: &[Row],
) -> Result<(), Fail> {
    let decl = declaration(alloc)?;
    for (row, (code, expected)) in table.iter().enumerate() {
        let height = height(alloc, &decl, ty, code)?;
        assert_eq!(rt; height, *expected, "{about}, row {row}");
    }
    Ok(())
}

#[test]
fn bodies_are_typed_as_is_said(rt: HostRuntime) -> Result<(), Fail> {
    for (about, ty, table) in &BODIES {
        check_bodies(&rt, rt.alloc(), about, *ty, table)?;
    }
    Ok(())
}

#[test]
fn an_instruction_has_16_bytes(rt: HostRuntime) {
    assert_eq!(rt; size_of::<Instr>(), 16);
}
