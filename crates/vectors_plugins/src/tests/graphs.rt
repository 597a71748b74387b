//! What is reached in stores that are made at random, beside a slow closure over what was stored where.
use crate::tests::{TestStore, calls, check_same, host_function, new_store};
use std::alloc::Global as Heap;
use std::process::Abort;
use wasm_plugins::Node;
use wasm_types::{GlobalType, HeapType, MemoryType, Mutability, RefType, TableType, ValType};
use wasm_values::{Extern, Func, Ref, StoreIds, Val};

/// How many stores are made, how many objects each has, and how often a place is changed behind that.
const STORES: usize = 1_000;

const OBJECTS: usize = 12;

const CHANGES: usize = 8;

/// Numbers that look random, and are the same in each run.
#[derive(Drop)]
struct Dice {
    state: u64,
}

impl Dice {
    /// A number below this one; 0 where there is none.
    fn roll(&mut self, below: usize) -> usize {
        self.state = self
            .state
            .wrapping_mul(6_364_136_223_846_793_005)
            .wrapping_add(1_442_695_040_888_963_407);
        ((self.state >> 33) as usize)
            .checked_rem(below)
            .unwrap_or(0)
    }
}

/// An object, the places in the list of the objects that it leads to, and whether it is reached.
#[derive(Clone, Copy)]
struct Made {
    object: Extern,
    leads: [Option<usize>; 3],
    reached: bool,
}

/// A function of those that were made, and its place; or none.
fn function_among(made: &[Made], dice: &mut Dice) -> Option<(usize, Func)> {
    let place = dice.roll(made.len());
    let func = made.get(place)?.object.into_func()?;
    Some((place, func))
}

fn func_of(found: Option<(usize, Func)>) -> Option<Func> {
    let (_, func) = found?;
    Some(func)
}

fn place_of(found: Option<(usize, Func)>) -> Option<usize> {
    let (place, _) = found?;
    Some(place)
}

/// A function of the host with two of the objects stored.
fn new_function(
    rt: &impl Abort,
    alloc: Heap,
    store: &mut TestStore,
    made: &[Made],
    dice: &mut Dice,
) -> Made {
    let places = [dice.roll(made.len()), dice.roll(made.len())];
    let (Some(first), Some(second)) = (made.get(places[0]), made.get(places[1])) else {
        let func = host_function(rt, alloc, store, 0, &[], &[], &[]);
        return Made {
            object: Extern::Func(func),
            leads: [None; 3],
            reached: false,
        };
    };
    let stored = [first.object, second.object];
    let func = host_function(rt, alloc, store, 0, &[], &[], &stored);
    Made {
        object: Extern::Func(func),
        leads: [Some(places[0]), Some(places[1]), None],
        reached: false,
    }
}

/// A table of three nulls.
fn new_table(rt: &impl Abort, store: &mut TestStore) -> Made {
    let Ok(ty) = TableType::new(RefType::new(true, HeapType::Func), 3, None) else {
        panic!(rt; "a type");
    };
    let Ok(table) = calls::table_new(store, ty, Ref::Func(None)) else {
        panic!(rt; "a table");
    };
    Made {
        object: Extern::Table(table),
        leads: [None; 3],
        reached: false,
    }
}

/// A global with a function or a null.
fn new_global(rt: &impl Abort, store: &mut TestStore, made: &[Made], dice: &mut Dice) -> Made {
    let found = function_among(made, dice);
    let ty = GlobalType::new(ValType::funcref(), Mutability::Var);
    let Ok(global) = calls::global_new(store, ty, Val::FuncRef(func_of(found))) else {
        panic!(rt; "a global");
    };
    Made {
        object: Extern::Global(global),
        leads: [place_of(found), None, None],
        reached: false,
    }
}

fn new_memory(rt: &impl Abort, store: &mut TestStore) -> Made {
    let Ok(ty) = MemoryType::new(0, None, 16) else {
        panic!(rt; "a type");
    };
    let Ok(memory) = calls::memory_new(store, ty) else {
        panic!(rt; "a memory");
    };
    Made {
        object: Extern::Memory(memory),
        leads: [None; 3],
        reached: false,
    }
}

/// Objects of a store, each after those that it leads to.
fn objects_in(rt: &impl Abort, alloc: Heap, store: &mut TestStore, dice: &mut Dice) -> Vec<Made> {
    let mut made = Vec::new(alloc);
    for _ in 0..OBJECTS {
        let next = match dice.roll(7) {
            0 => new_memory(rt, store),
            1 | 2 => new_table(rt, store),
            3 => new_global(rt, store, made.as_slice(), dice),
            _ => new_function(rt, alloc, store, made.as_slice(), dice),
        };
        check_same(rt, made.push(next).is_ok(), true);
    }
    made
}

/// Makes a function, or a null, what stands at a place of a table or in a global.
fn change(rt: &impl Abort, store: &mut TestStore, made: &mut [Made], dice: &mut Dice) {
    let found = function_among(made, dice);
    let place = dice.roll(3);
    let at = dice.roll(made.len());
    let Some(item) = made.get_mut(at) else {
        return;
    };
    let func = func_of(found);
    match item.object {
        Extern::Table(table) => {
            let set = calls::table_set(store, table, place as u64, Ref::Func(func));
            check_same(rt, set, Ok(()));
            if let Some(lead) = item.leads.get_mut(place) {
                *lead = place_of(found);
            }
        }
        Extern::Global(global) => {
            check_same(
                rt,
                calls::global_set(store, global, Val::FuncRef(func)),
                Ok(()),
            );
            item.leads = [place_of(found), None, None];
        }
        _ => {}
    }
}

fn mark(made: &mut [Made], lead: Option<usize>) {
    let Some(at) = lead else {
        return;
    };
    if let Some(item) = made.get_mut(at) {
        item.reached = true;
    }
}

/// Marks what the objects lead to that are marked.
fn mark_leads(made: &mut [Made]) {
    for at in 0..made.len() {
        if let Some(item) = made.get(at).copied() {
            if item.reached {
                mark(made, item.leads[0]);
                mark(made, item.leads[1]);
                mark(made, item.leads[2]);
            }
        }
    }
}

/// Marks all that is reached from one object.
fn mark_reached(made: &mut [Made], root: usize) {
    mark(made, Some(root));
    for _ in 0..made.len() {
        mark_leads(made);
    }
}

fn node_of(object: Extern) -> Option<Node> {
    match object {
        Extern::Func(func) => Some(Node::Func(func.index())),
        Extern::Global(global) => Some(Node::Global(global.index())),
        Extern::Table(table) => Some(Node::Table(table.index())),
        Extern::Memory(memory) => Some(Node::Memory(memory.index())),
        Extern::Tag(_) => None,
    }
}

/// What is marked is what is reached.
fn check_marks(rt: &impl Abort, alloc: Heap, store: &TestStore, made: &[Made], root: Extern) {
    let Some(root) = node_of(root) else {
        return;
    };
    // What is not there is reached by nothing.
    let roots = [root, Node::Instance(0), Node::Func(OBJECTS)];
    let Ok(set) = calls::reach(alloc, store, &roots) else {
        panic!(rt; "there is no memory");
    };
    for item in made {
        if let Some(node) = node_of(item.object) {
            check_same(rt, set.contains(node), item.reached);
        }
    }
    check_same(rt, set.contains(Node::Instance(0)), false);
    check_same(rt, set.contains(Node::Func(OBJECTS)), false);
}

fn check_graph(rt: &impl Abort, alloc: Heap, dice: &mut Dice) {
    let mut store = new_store(rt, alloc, &mut StoreIds::new());
    let mut made = objects_in(rt, alloc, &mut store, dice);
    for _ in 0..CHANGES {
        change(rt, &mut store, made.as_mut_slice(), dice);
    }
    let root = dice.roll(OBJECTS);
    mark_reached(made.as_mut_slice(), root);
    if let Some(item) = made.get(root).copied() {
        check_marks(rt, alloc, &store, made.as_slice(), item.object);
    }
}

#[test]
fn what_is_reached_is_what_a_slow_closure_gives(rt: HostRuntime) {
    let alloc = rt.alloc();
    let mut dice = Dice { state: 54 };
    for _ in 0..STORES {
        check_graph(&rt, alloc, &mut dice);
    }
}
