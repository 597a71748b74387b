//! That what takes memory is done where there is memory, and which places of a table look-ups fill. What else the objects do
//! is in their clauses.
use crate::tests::check_same;
use std::alloc::Global;
use std::rc::RcSlice;
use std::test::Fail;
use wasm_objects::{DataSegment, ElemSegment, MemoryObject, RawRef, TableObject};
use wasm_types::{Cell, HeapType, MemoryType, RefType, TableType};

const FIRST: Option<RawRef> = Some(RawRef::Func(7));

const LISTED: Option<RawRef> = Some(RawRef::Func(41));

const NULL: Option<RawRef> = Some(RawRef::Null);

/// A table of five places, `FIRST` in each but those that an image of three places writes, of a module whose functions are
/// 40 and 41 in the store.
fn lazy_table(alloc: Global) -> Result<TableObject, Fail> {
    let ty = TableType::new(RefType::new(true, HeapType::Func), 5, None)?;
    let image = RcSlice::from_slice(alloc, &[Cell::Init, Cell::Func(1), Cell::Null])?;
    let functions = RcSlice::from_slice(alloc, &[40, 41])?;
    let object = TableObject::try_new_lazy(alloc, ty, RawRef::Func(7), image, functions)?;
    Ok(object)
}

/// What the first six places hold. None is filled by it.
fn elements(object: &TableObject) -> [Option<RawRef>; 6] {
    [
        object.peek(0),
        object.peek(1),
        object.peek(2),
        object.peek(3),
        object.peek(4),
        object.peek(5),
    ]
}

#[test]
fn a_memory_grows_over_its_room(rt: HostRuntime) -> Result<(), Fail> {
    let mut object = MemoryObject::try_new(rt.alloc(), MemoryType::new(2, None, 0)?)?;
    object.reserve(3)?;
    object.grow(3);
    object.write(0, &[7, 8]);
    assert_eq!(rt; object.bytes(), &[7, 8, 0, 0, 0][..]);
    Ok(())
}

#[test]
fn a_table_grows_over_its_room(rt: HostRuntime) -> Result<(), Fail> {
    let element = RefType::new(true, HeapType::Extern);
    let ty = TableType::new(element, 1, None)?;
    let mut object = TableObject::try_new(rt.alloc(), ty, RawRef::Extern(6))?;
    object.reserve(1)?;
    object.grow(1, RawRef::Null);
    assert_eq!(rt; object.get(0), Some(RawRef::Extern(6)));
    assert_eq!(rt; object.get(1), Some(RawRef::Null));
    assert_eq!(rt; object.get(2), None);
    Ok(())
}

#[test]
fn segments_hold_what_they_are_made_of(rt: HostRuntime) -> Result<(), Fail> {
    let references = ElemSegment::try_new(rt.alloc(), &[RawRef::Func(3), RawRef::I31(4)])?;
    assert_eq!(rt; references.get(1), Some(RawRef::I31(4)));
    let bytes = DataSegment::try_new(rt.alloc(), b"ab")?;
    assert_eq!(rt; bytes.len(), 2);
    Ok(())
}

#[test]
fn places_are_filled_as_they_are_looked_up(rt: HostRuntime) -> Result<(), Fail> {
    let mut object = lazy_table(rt.alloc())?;
    let image = [FIRST, LISTED, NULL, FIRST, FIRST, None];
    check_same(&rt, "image", &elements(&object), &image);
    check_same(&rt, "none is filled", &object.filled(), &0);
    check_same(&rt, "not yet a function", &object.filled_function(1), &None);
    check_same(&rt, "looked up", &object.get(1), &LISTED);
    check_same(&rt, "one is filled", &object.filled(), &1);
    check_same(&rt, "a function", &object.filled_function(1), &Some(41));
    check_same(&rt, "again", &object.get(1), &LISTED);
    check_same(&rt, "still one", &object.filled(), &1);
    check_same(&rt, "a null", &object.get(2), &NULL);
    check_same(&rt, "behind the image", &object.get(4), &FIRST);
    check_same(&rt, "past the end", &object.get(5), &None);
    check_same(&rt, "three", &object.filled(), &3);
    check_same(&rt, "the same", &elements(&object), &image);
    Ok(())
}

#[test]
fn what_is_copied_is_filled_and_not_counted(rt: HostRuntime) -> Result<(), Fail> {
    let mut up = lazy_table(rt.alloc())?;
    check_same(&rt, "up", &up.copy_within(2, 0, 3), &true);
    let copied = [FIRST, LISTED, FIRST, LISTED, NULL, None];
    check_same(&rt, "copied up", &elements(&up), &copied);
    check_same(&rt, "as a function", &up.filled_function(3), &Some(41));
    check_same(&rt, "where it came from", &up.filled_function(1), &None);
    let mut down = lazy_table(rt.alloc())?;
    check_same(&rt, "down", &down.copy_within(0, 1, 3), &true);
    let copied = [LISTED, NULL, FIRST, FIRST, FIRST, None];
    check_same(&rt, "copied down", &elements(&down), &copied);
    check_same(&rt, "between two", &down.copy_from(3, &up, 1, 2), &true);
    let copied = [LISTED, NULL, FIRST, LISTED, FIRST, None];
    check_same(&rt, "copied from", &elements(&down), &copied);
    check_same(&rt, "set", &down.set(2, RawRef::Null), &true);
    down.reserve(1)?;
    down.grow(1, RawRef::Func(40));
    let grown = [LISTED, NULL, NULL, LISTED, FIRST, Some(RawRef::Func(40))];
    check_same(&rt, "grown", &elements(&down), &grown);
    check_same(&rt, "none looked up", &down.filled(), &0);
    Ok(())
}

#[test]
fn memories_begin_with_an_image(rt: HostRuntime) -> Result<(), Fail> {
    let alloc = rt.alloc();
    let short = MemoryObject::try_new_with(alloc, MemoryType::new(4, None, 0)?, &[7, 8])?;
    assert_eq!(rt; short.bytes(), &[7, 8, 0, 0][..]);
    let full = MemoryObject::try_new_with(alloc, MemoryType::new(2, None, 0)?, &[7, 8])?;
    assert_eq!(rt; full.bytes(), &[7, 8][..]);
    let empty = MemoryObject::try_new_with(alloc, MemoryType::new(2, None, 0)?, &[])?;
    assert_eq!(rt; empty.bytes(), &[0, 0][..]);
    Ok(())
}
