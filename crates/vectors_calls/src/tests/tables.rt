//! Tables whose places are filled as they are looked up.
use crate::tests::modules::{LAZY, module_in};
use crate::tests::{Meter, calls, check_same, done, found, new_store, no_epochs};
use wasm_values::Table;

#[test]
fn a_place_is_filled_by_its_first_look_up(rt: HostRuntime) {
    let alloc = rt.alloc();
    let store = new_store(&rt, alloc, Meter::Nothing);
    let module = module_in(&rt, alloc, LAZY);
    let mut epochs = no_epochs(&rt, alloc);
    done(&rt, calls::instance_new(store, &mut epochs, &module));
    let table = Table::from_parts(store.id(), 0);
    check_same(&rt, calls::table_filled(store, table), Ok(0));
    for (place, filled) in [(0, 1), (0, 1), (2, 2)].iter() {
        found(&rt, calls::table_get(store, table, *place));
        check_same(&rt, calls::table_filled(store, table), Ok(*filled));
    }
}
