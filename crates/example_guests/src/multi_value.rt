//! A host that calls guest functions of two results: a quotient and the remainder beside it.

use crate::guests::{call, instance_of};
use std::alloc::Global as Heap;
use wasm_embedding::{
    Fault, FuncTyped, InstanceTyped, Module, Refusal, Store, StoreIds, TypedFunc, module_from_json,
    plain_store,
};

/// A function that divides its first number by its second, and one that divides the larger of the two by the smaller.
/// The block of the second function takes both numbers and leaves both, in that order: a branch to its end carries them
/// as they are, and the code behind the branch swaps them. The call takes the two, and its two results are the
/// function's own.
const DIVIDER: &str = r#"{
  "types": [{"params": ["i32", "i32"], "results": ["i32", "i32"]}],
  "module": {
    "functions": [
      {"type": 0, "code": [
        ["local.get", 0], ["local.get", 1], ["i32.div_u"],
        ["local.get", 0], ["local.get", 1], ["i32.rem_u"]
      ]},
      {"type": 0, "code": [
        ["local.get", 0], ["local.get", 1],
        ["block", 0, [
          ["local.get", 0], ["local.get", 1], ["i32.ge_u"], ["br_if", 0],
          ["local.set", 0], ["local.set", 1], ["local.get", 0], ["local.get", 1]
        ]],
        ["call", 0]
      ]}
    ],
    "exports": [{"name": "divide", "func": 0}, {"name": "divide_larger", "func": 1}]
  }
}"#;

/// A function that takes two numbers and gives a quotient and a remainder.
type Divide = TypedFunc<(i32, i32), (i32, i32)>;

/// What the host saw.
#[derive(Debug, Drop)]
struct Seen {
    divided: (i32, i32),
    in_order: (i32, i32),
    swapped: (i32, i32),
    as_one: Option<Refusal>,
    by_zero: Option<Refusal>,
}

/// Makes an instance, and calls its functions.
fn see(store: &mut Store<()>, divider_module: &Module) -> Result<Seen, Fault> {
    let instance = instance_of(store, divider_module, &[])?;
    let divide: Divide = instance.get_typed_func(store, "divide")?;
    let divide_larger: Divide = instance.get_typed_func(store, "divide_larger")?;
    Ok(Seen {
        divided: call(store, &divide, (17, 5))?,
        in_order: call(store, &divide_larger, (17, 5))?,
        swapped: call(store, &divide_larger, (4, 30))?,
        // As a function of one result there is none.
        as_one: divide.func().typed::<(i32, i32), i32>(store).err(),
        by_zero: call(store, &divide, (17, 0)).err(),
    })
}

/// Makes a store, and works in it. A call gives the store up in the end: a crate that drops one itself checks the
/// destructors of all its parts.
fn run(alloc: Heap, divider_module: &Module) -> Result<Seen, Fault> {
    let mut store = plain_store(alloc, &mut StoreIds::new(), ());
    let seen = see(&mut store, divider_module);
    store.into_data();
    seen
}

pub(crate) fn show(rt: &impl Print, alloc: Heap) -> Result<(), Fault> {
    let seen = run(alloc, &module_from_json(alloc, 0, DIVIDER)?)?;
    println!(rt; "multi_value\n{seen:?}")?;
    Ok(())
}
