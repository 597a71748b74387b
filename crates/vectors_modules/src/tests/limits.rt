use super::declarations::{
    assert_broken, assert_valid, block, function, module, one, repeated, types, with_code,
    with_function,
};
use std::alloc::{AllocError, Global};
use std::test::Fail;
use wasm_module::{
    Block, ConstExpr, DataDecl, DataMode, ElemDecl, ElemMode, Instr, ModuleDecl, Part, Rule,
    TargetList,
};
use wasm_types::{ByteList, HeapTopType, HeapType, Items, RefType, ValType};

/// So many tags of one type.
fn tags(alloc: Global, count: usize) -> Result<ModuleDecl, Fail> {
    let tags = repeated(alloc, 0u32, count)?;
    let types = types(alloc, &[])?;
    let none = Vec::new(alloc);
    Ok(module(alloc, types, none, tags, Vec::new(alloc), Vec::new(alloc)))
}

/// A module of these segments alone.
fn with_segments(alloc: Global, elements: Vec<ElemDecl>, datas: Vec<DataDecl>) -> ModuleDecl {
    let none = Vec::new(alloc);
    module(
        alloc,
        none,
        Vec::new(alloc),
        Vec::new(alloc),
        elements,
        datas,
    )
}

fn null_functions(alloc: Global, count: usize) -> Result<Vec<ConstExpr>, AllocError> {
    let mut items = Vec::with_capacity(alloc, count)?;
    for _ in 0..count {
        items.push(ConstExpr::RefNull(HeapTopType::Func))?;
    }
    Ok(items)
}

/// A declared segment of so many null functions.
fn items(alloc: Global, count: usize) -> Result<ModuleDecl, AllocError> {
    let items = null_functions(alloc, count)?;
    let segment = ElemDecl {
        ty: RefType::new(true, HeapType::Func),
        mode: ElemMode::Declared,
        items: Items(items),
    };
    let elements = one(alloc, segment)?;
    Ok(with_segments(alloc, elements, Vec::new(alloc)))
}

/// A passive segment of so many bytes.
fn bytes(alloc: Global, count: usize) -> Result<ModuleDecl, AllocError> {
    let bytes = repeated(alloc, 0u8, count)?;
    let segment = DataDecl {
        mode: DataMode::Passive,
        bytes: ByteList(bytes),
    };
    let datas = one(alloc, segment)?;
    Ok(with_segments(alloc, Vec::new(alloc), datas))
}

/// A list of one empty block.
fn empty_body(alloc: Global) -> Result<Vec<Block>, AllocError> {
    let body = block(alloc, 0, &[])?;
    one(alloc, body)
}

/// A function of one parameter and so many locals.
fn locals(alloc: Global, count: usize) -> Result<ModuleDecl, Fail> {
    let locals = repeated(alloc, ValType::I64, count)?;
    let blocks = empty_body(alloc)?;
    let function = function(locals, blocks, Vec::new(alloc));
    with_function(alloc, &[ValType::I32], function)
}

/// A function of so many instructions.
fn instructions(alloc: Global, count: usize) -> Result<ModuleDecl, Fail> {
    let code = repeated(alloc, Instr::Nop, count)?;
    with_code(alloc, &[], code.as_slice())
}

/// A function with a target list of so many labels.
fn labels(alloc: Global, count: usize) -> Result<ModuleDecl, Fail> {
    let labels = repeated(alloc, 0u32, count)?;
    let targets = one(alloc, TargetList(labels))?;
    let blocks = empty_body(alloc)?;
    let function = function(Vec::new(alloc), blocks, targets);
    with_function(alloc, &[], function)
}

/// So many blocks, each in the one before.
fn nested_blocks(alloc: Global, depth: u32) -> Result<Vec<Block>, AllocError> {
    let mut blocks = Vec::new(alloc);
    for inner in 1..depth {
        let outer = block(alloc, 0, &[Instr::Block(inner)])?;
        blocks.push(outer)?;
    }
    let last = block(alloc, 0, &[])?;
    blocks.push(last)?;
    Ok(blocks)
}

/// A function of so many blocks, each in the one before.
fn nested(alloc: Global, depth: u32) -> Result<ModuleDecl, Fail> {
    let blocks = nested_blocks(alloc, depth)?;
    let function = function(Vec::new(alloc), blocks, Vec::new(alloc));
    with_function(alloc, &[], function)
}

#[test]
fn lists_are_as_long_as_is_said(rt: HostRuntime) -> Result<(), Fail> {
    assert_valid(&rt, rt.alloc(), tags(rt.alloc(), 1_000_000)?);
    let more = tags(rt.alloc(), 1_000_001)?;
    assert_broken(&rt, rt.alloc(), more, Rule::Size, Part::Tags, 1_000_000);
    assert_valid(&rt, rt.alloc(), items(rt.alloc(), 1_000_000)?);
    let more = items(rt.alloc(), 1_000_001)?;
    assert_broken(&rt, rt.alloc(), more, Rule::Size, Part::Elements, 0);
    assert_valid(&rt, rt.alloc(), bytes(rt.alloc(), 1 << 24)?);
    let more = bytes(rt.alloc(), (1 << 24) + 1)?;
    assert_broken(&rt, rt.alloc(), more, Rule::Size, Part::Datas, 0);
    assert_valid(&rt, rt.alloc(), locals(rt.alloc(), 9_999)?);
    let more = locals(rt.alloc(), 10_000)?;
    assert_broken(&rt, rt.alloc(), more, Rule::Size, Part::Functions, 0);
    Ok(())
}

#[test]
fn code_is_as_long_and_deep_as_is_said(rt: HostRuntime) -> Result<(), Fail> {
    assert_valid(&rt, rt.alloc(), instructions(rt.alloc(), 1 << 20)?);
    let more = instructions(rt.alloc(), (1 << 20) + 1)?;
    assert_broken(&rt, rt.alloc(), more, Rule::Shape, Part::Functions, 0);
    assert_valid(&rt, rt.alloc(), labels(rt.alloc(), 1 << 20)?);
    let more = labels(rt.alloc(), (1 << 20) + 1)?;
    assert_broken(&rt, rt.alloc(), more, Rule::Shape, Part::Functions, 0);
    let none = labels(rt.alloc(), 0)?;
    assert_broken(&rt, rt.alloc(), none, Rule::Shape, Part::Functions, 0);
    assert_valid(&rt, rt.alloc(), nested(rt.alloc(), 256)?);
    let more = nested(rt.alloc(), 257)?;
    assert_broken(&rt, rt.alloc(), more, Rule::Shape, Part::Functions, 0);
    Ok(())
}
