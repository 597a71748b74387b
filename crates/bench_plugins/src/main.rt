//! Makes a store of so many objects, computes so often what is reached from the last of them, and prints how often the
//! first was among it. It is timed from outside. The words are what the store holds, `tables`, `elements`, `functions`
//! or `instances`, how many of these, and how often.
#![tactic(auto)]

use std::alloc::Global as Heap;
use std::{env, io};
use wasm_embedding::{
    CountEpochs, ENGINE, Extern, Fault, Func, FuncCalls, FuncType, HeapType, Instance,
    InstanceCalls, Module, NoHost, Node, Ref, RefType, Refusal, Store, StoreIds, Table, TableCalls,
    TableType, module_from_json, plain_store, reach_of,
};

/// It imports a function, and exports one that calls it.
const LINK: &str = r#"{
  "types": [{}],
  "module": {
    "imports": [{"module": "before", "name": "next", "func": 0}],
    "functions": [{"type": 0, "code": [["call", 0]]}],
    "exports": [{"name": "next", "func": 1}]
  }
}"#;

/// From where all is to be reached, and the object that is reached last.
#[derive(Clone, Copy)]
struct Way {
    root: Node,
    end: Node,
}

/// A function of the host with these objects stored.
fn function_over(alloc: Heap, store: &mut Store<()>, stored: &[Extern]) -> Result<Func, Fault> {
    let ty = FuncType::try_new(alloc, ENGINE, &[], &[])?;
    Ok(Func::try_new(store, ty, 0, stored)?)
}

/// A table with a function or a null at each place.
fn table_of(store: &mut Store<()>, size: u32, func: Option<Func>) -> Result<Table, Fault> {
    let ty = TableType::new(RefType::new(true, HeapType::Func), size, None)?;
    Ok(Table::new(store, ty, Ref::Func(func))?)
}

/// A table with a function of the host that leads to another table.
fn table_before(alloc: Heap, store: &mut Store<()>, table: Table) -> Result<Table, Fault> {
    let func = function_over(alloc, store, &[Extern::Table(table)])?;
    table_of(store, 1, Some(func))
}

/// Tables of which each leads to the one that was made before it.
fn chain_of_tables(alloc: Heap, store: &mut Store<()>, count: u32) -> Result<Way, Fault> {
    let end = table_of(store, 1, None)?;
    let mut root = end;
    for _ in 1..count {
        root = table_before(alloc, store, root)?;
    }
    Ok(Way {
        root: Node::Table(root.index()),
        end: Node::Table(end.index()),
    })
}

/// A table of so many elements, all of one function.
fn full_table(alloc: Heap, store: &mut Store<()>, count: u32) -> Result<Way, Fault> {
    let func = function_over(alloc, store, &[])?;
    let table = table_of(store, count, Some(func))?;
    Ok(Way {
        root: Node::Table(table.index()),
        end: Node::Func(func.index()),
    })
}

/// A function of its own at a place of a table.
fn function_at(
    alloc: Heap,
    store: &mut Store<()>,
    table: Table,
    place: u32,
) -> Result<Func, Fault> {
    let func = function_over(alloc, store, &[])?;
    table.set(store, u64::from(place), Ref::Func(Some(func)))?;
    Ok(func)
}

/// A table of so many elements, each a function of its own.
fn table_of_functions(alloc: Heap, store: &mut Store<()>, count: u32) -> Result<Way, Fault> {
    let table = table_of(store, count, None)?;
    let mut end = Node::Table(table.index());
    for place in 0..count {
        let func = function_at(alloc, store, table, place)?;
        end = Node::Func(func.index());
    }
    Ok(Way {
        root: Node::Table(table.index()),
        end,
    })
}

/// An instance over a function.
fn instance_over(store: &mut Store<()>, module: &Module, func: Func) -> Result<Instance, Fault> {
    let imports = [Extern::Func(func)];
    let instance = Instance::new(
        store,
        module,
        &imports,
        &mut NoHost,
        &mut CountEpochs::new(),
    )?;
    Ok(instance)
}

/// Instances of which each imports the function of the one that was made before it.
fn chain_of_instances(alloc: Heap, store: &mut Store<()>, count: u32) -> Result<Way, Fault> {
    let module = module_from_json(alloc, 0, LINK)?;
    let end = function_over(alloc, store, &[])?;
    let mut func = end;
    let mut root = Node::Func(end.index());
    for _ in 0..count {
        let instance = instance_over(store, &module, func)?;
        func = instance.get_func(store, "next")?.ok_or(Refusal::NoExport)?;
        root = Node::Instance(instance.index());
    }
    Ok(Way {
        root,
        end: Node::Func(end.index()),
    })
}

fn way_in(alloc: Heap, store: &mut Store<()>, kind: &str, count: u32) -> Result<Way, Fault> {
    match kind {
        "tables" => chain_of_tables(alloc, store, count),
        "elements" => full_table(alloc, store, count),
        "functions" => table_of_functions(alloc, store, count),
        _ => chain_of_instances(alloc, store, count),
    }
}

/// Whether the way leads to its end.
fn is_reached(alloc: Heap, store: &Store<()>, way: Way) -> Result<bool, Fault> {
    let set = reach_of(alloc, store, &[way.root])?;
    Ok(set.contains(way.end))
}

fn times_reached(
    alloc: Heap,
    store: &mut Store<()>,
    kind: &str,
    count: u32,
    times: u32,
) -> Result<u32, Fault> {
    let way = way_in(alloc, store, kind, count)?;
    let mut reached = 0u32;
    for _ in 0..times {
        if is_reached(alloc, store, way)? {
            reached = reached.saturating_add(1);
        }
    }
    Ok(reached)
}

fn work(alloc: Heap, kind: &str, count: u32, times: u32) -> Result<u32, Fault> {
    let mut store = plain_store(alloc, &mut StoreIds::new(), ());
    let reached = times_reached(alloc, &mut store, kind, count, times);
    store.into_data();
    reached
}

/// The word at a place of the command line, or an empty one.
fn word_at(words: &[String], place: usize) -> &str {
    match words.get(place) {
        Some(word) => word.as_str(),
        None => "",
    }
}

fn number_at(words: &[String], place: usize) -> u32 {
    word_at(words, place).parse::<u32>().unwrap_or(0)
}

fn main(rt: HostRuntime) -> io::Result<()> {
    let words: Vec<String> = env::args(&rt)?.collect(rt.alloc())?;
    let words = words.as_slice();
    let kind = word_at(words, 1);
    match work(rt.alloc(), kind, number_at(words, 2), number_at(words, 3)) {
        Ok(reached) => println!(rt; "{reached}"),
        Err(fault) => println!(rt; "{fault}"),
    }
}
