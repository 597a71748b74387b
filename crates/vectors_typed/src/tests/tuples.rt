//! Each tuple of static types, as what a call takes and gives and as what a closure takes and gives.
use crate::tests::{calls, check_same, new_store};
use wasm_values::StoreIds;

#[test]
fn each_tuple_passes_through_a_closure(rt: HostRuntime) {
    let store = new_store(&rt, rt.alloc(), &mut StoreIds::new());
    check_same(&rt, calls::echo(store, ()), Ok(()));
    check_same(&rt, calls::echo(store, (1,)), Ok((1,)));
    check_same(&rt, calls::echo(store, (1, 2_i64)), Ok((1, 2)));
    check_same(&rt, calls::echo(store, (1, 2_i64, 3_u32)), Ok((1, 2, 3)));
    check_same(&rt, calls::echo(store, (1, 2, 3, 4)), Ok((1, 2, 3, 4)));
    check_same(
        &rt,
        calls::echo(store, (1, 2, 3, 4, 5)),
        Ok((1, 2, 3, 4, 5)),
    );
    check_same(
        &rt,
        calls::echo(store, (1, 2, 3, 4, 5, 6)),
        Ok((1, 2, 3, 4, 5, 6)),
    );
}

#[test]
fn a_closure_changes_the_order(rt: HostRuntime) {
    let store = new_store(&rt, rt.alloc(), &mut StoreIds::new());
    let turned = calls::through(
        store,
        |_data: &mut (), three: (i32, i64, u32)| -> (u32, i32, i64) { (three.2, three.0, three.1) },
        (1, 2_i64, 3_u32),
    );
    check_same::<Result<(u32, i32, i64), _>>(&rt, turned, Ok((3, 1, 2)));
}
