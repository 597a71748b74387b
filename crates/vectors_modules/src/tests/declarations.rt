//! Modules as the tests declare them. No function here says what it makes, so that no proof of a test carries it, and
//! each list is made alone and then put into the declaration, as a proof about the whole declaration costs most.
use std::alloc::{AllocError, Global};
use std::process::Abort;
use std::test::Fail;
use wasm_module::{
    Block, DataDecl, ElemDecl, EntityIndex, ExportDecl, FuncDecl, Instr, Module, ModuleDecl,
    ModuleFault, Part, Place, Rule, TargetList,
};
use wasm_types::{EngineId, FuncType, Items, Text, ValType};

pub(crate) const ENGINE: EngineId = EngineId(1);

/// A list of one item.
pub(crate) fn one<T: Drop>(alloc: Global, item: T) -> Result<Vec<T>, AllocError> {
    let mut items = Vec::new(alloc);
    items.push(item)?;
    Ok(items)
}

/// A list of so many copies of an item.
pub(crate) fn repeated<T: Clone>(
    alloc: Global,
    item: T,
    count: usize,
) -> Result<Vec<T>, AllocError> {
    Vec::from_elem(alloc, item, count)
}

/// The declaration of a module of number 7, with these and nothing else in it.
pub(crate) fn module(
    alloc: Global,
    types: Vec<FuncType>,
    functions: Vec<FuncDecl>,
    tags: Vec<u32>,
    elements: Vec<ElemDecl>,
    datas: Vec<DataDecl>,
) -> ModuleDecl {
    ModuleDecl {
        engine: ENGINE,
        number: 7,
        types: Items(types),
        imports: Items(Vec::new(alloc)),
        functions: Items(functions),
        tables: Items(Vec::new(alloc)),
        memories: Items(Vec::new(alloc)),
        globals: Items(Vec::new(alloc)),
        tags: Items(tags),
        exports: Items(Vec::new(alloc)),
        elements: Items(elements),
        datas: Items(datas),
        start: None,
    }
}

pub(crate) fn block(alloc: Global, ty: u32, code: &[Instr]) -> Result<Block, AllocError> {
    let mut instrs = Vec::new(alloc);
    instrs.extend_from_slice(code)?;
    Ok(Block {
        ty,
        instrs: Items(instrs),
    })
}

/// A function of type 0.
pub(crate) fn function(
    locals: Vec<ValType>,
    blocks: Vec<Block>,
    targets: Vec<TargetList>,
) -> FuncDecl {
    FuncDecl {
        ty: 0,
        locals: Items(locals),
        blocks: Items(blocks),
        targets: Items(targets),
    }
}

/// A function of type 0 that has this code in one block, without locals.
pub(crate) fn function_of_code(alloc: Global, code: &[Instr]) -> Result<FuncDecl, AllocError> {
    let body = block(alloc, 0, code)?;
    let blocks = one(alloc, body)?;
    Ok(function(Vec::new(alloc), blocks, Vec::new(alloc)))
}

/// The module, with one export, of function 0.
pub(crate) fn exporting(
    alloc: Global,
    mut decl: ModuleDecl,
    name: &str,
) -> Result<ModuleDecl, AllocError> {
    let export = ExportDecl {
        name: Text(String::from_str(alloc, name)?),
        entity: EntityIndex::Func(0),
    };
    decl.exports = Items(one(alloc, export)?);
    Ok(decl)
}

/// The list of one type, without results.
pub(crate) fn types(alloc: Global, params: &[ValType]) -> Result<Vec<FuncType>, Fail> {
    let ty = FuncType::try_new(alloc, ENGINE, params, &[])?;
    let types = one(alloc, ty)?;
    Ok(types)
}

/// A module of one type, without results, and this function.
pub(crate) fn with_function(
    alloc: Global,
    params: &[ValType],
    function: FuncDecl,
) -> Result<ModuleDecl, Fail> {
    let functions = one(alloc, function)?;
    let types = types(alloc, params)?;
    let none = Vec::new(alloc);
    Ok(module(
        alloc,
        types,
        functions,
        none,
        Vec::new(alloc),
        Vec::new(alloc),
    ))
}

/// A module of one type, without results, and a function of this code.
pub(crate) fn with_code(
    alloc: Global,
    params: &[ValType],
    code: &[Instr],
) -> Result<ModuleDecl, Fail> {
    let function = function_of_code(alloc, code)?;
    with_function(alloc, params, function)
}

/// The declaration makes a module of its number.
pub(crate) fn assert_valid(rt: &impl Abort, alloc: Global, decl: ModuleDecl) {
    let number = decl.number;
    match Module::validate(alloc, decl) {
        Ok(made) => assert_eq!(rt; made.number(), number),
        Err(ModuleFault::InvalidModule { .. }) => panic!(rt; "no module"),
        Err(ModuleFault::OutOfMemory) => panic!(rt; "no memory"),
    }
}

/// The declaration breaks this rule first, at this place.
pub(crate) fn assert_broken(
    rt: &impl Abort,
    alloc: Global,
    decl: ModuleDecl,
    rule: Rule,
    part: Part,
    item: u32,
) {
    let place = Place { part, item };
    match Module::validate(alloc, decl) {
        Ok(_) => panic!(rt; "a module"),
        Err(fault) => assert!(rt; fault == ModuleFault::InvalidModule { rule, place }),
    }
}
