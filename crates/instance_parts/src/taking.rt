ghost use Rattle.std.specs.Prelude.{◌≡◌, List, ℕ, ◌-◌, [], length, drop};
ghost use Rattle.wasm_module.specs.Images.{leading_elements, leading_datas};
ghost use Rattle.law_images.specs.Leading.{take_others};
ghost use Rattle.wasm_objects.specs.declared.raw.RawVal.{RawVal as Value};
ghost use Rattle.spec_machine.specs.Machine.{Machine};
ghost use Rattle.spec_execution.specs.Segments.{drop_taken_element, drop_taken_data, init_table, init_memory, take_element, take_elements, take_data, take_datas, Done};
ghost use Rattle.store_state.specs.Machine.{run_machine, elements_of, data_of};
ghost use Rattle.code_straight.specs.Acting.{effect_of, Keeps};
ghost use Rattle.instance_parts.specs.Taking.{followed, Takes, HasSize, ElementsStand, DatasStand, SameElementsBehind, SameDatasBehind, SameDatas};

use crate::constants::offset_of;
use code_straight::{Acted, done_or, memory_at, table_at};
use store_state::{Held, Program};
use wasm_module::{DataDecl, DataMode, ElemDecl, ElemMode, Module};
use wasm_objects::RawVal;
use wasm_values::Trap;

// Makes an element segment of an instance empty.
fn drop_element(program: &Program, held: &mut Held, instance: usize, segment: usize)
    ensures dropped { (base : Machine) → drop_taken_element instance segment (run_machine base program.now held.old)
        ≡ run_machine base program.now held.new }
    ensures behind { SameElementsBehind instance segment held.old held.new }
    ensures datas { SameDatas instance held.old held.new }
{
    let Some(_names) = program.instance(instance) else {
        return;
    };
    if held.drop_elements(instance, segment) {
        return;
    }
}

// Makes a data segment of an instance empty.
fn drop_data(program: &Program, held: &mut Held, instance: usize, segment: usize)
    ensures dropped { (base : Machine) → drop_taken_data instance segment (run_machine base program.now held.old)
        ≡ run_machine base program.now held.new }
    ensures behind { SameDatasBehind instance segment held.old held.new }
{
    let Some(_names) = program.instance(instance) else {
        return;
    };
    if held.drop_data(instance, segment) {
        return;
    }
}

// Writes an element segment of an instance, which has so many elements, whole into a table, from this place on.
fn init_table(
    program: &Program,
    held: &mut Held,
    instance: usize,
    segment: usize,
    table: u32,
    at: usize,
    len: usize,
) -> Acted
    requires sized { HasSize len (elements_of held.old instance segment) }
    ensures wrote { (base : Machine) (fs : List ℕ) (gs : List Value) →
        init_table instance fs gs (run_machine base program.now held.old) segment table at
        ≡ effect_of result (run_machine base program.now held.new) [] [] }
    ensures kept { Keeps result held.old held.new }
    ensures segments { held.new.segments ≡ held.old.segments }
{
    let Some(number) = table_at(program, instance, held, table) else {
        return Acted::Sticks;
    };
    match held.init_elements(number, at, instance, segment, 0, len) {
        Some(done) => done_or(Trap::TableOutOfBounds, done),
        None => Acted::Sticks,
    }
}

// Writes a data segment of an instance, which has so many bytes, whole into a memory, from this byte on.
fn init_memory(
    program: &Program,
    held: &mut Held,
    instance: usize,
    segment: usize,
    memory: u32,
    at: usize,
    len: usize,
) -> Acted
    requires sized { HasSize len (data_of held.old instance segment) }
    ensures wrote { (base : Machine) (fs : List ℕ) (gs : List Value) →
        init_memory instance fs gs (run_machine base program.now held.old) segment memory at
        ≡ effect_of result (run_machine base program.now held.new) [] [] }
    ensures kept { Keeps result held.old held.new }
    ensures segments { held.new.segments ≡ held.old.segments }
{
    let Some(number) = memory_at(program, instance, held, memory) else {
        return Acted::Sticks;
    };
    match held.init_bytes(number, at, instance, segment, 0, len) {
        Some(done) => done_or(Trap::MemoryOutOfBounds, done),
        None => Acted::Sticks,
    }
}

// Takes an element segment of an instance, over the values of its globals.
fn take_element(
    program: &Program,
    held: &mut Held,
    instance: usize,
    globals: &[RawVal],
    segment: usize,
    declared: &ElemDecl,
) -> Acted
    requires sized { HasSize (length declared.now.items) (elements_of held.old instance segment) }
    ensures takes { Takes (λ fs m go. take_element instance fs globals.now m segment declared.now.mode go)
        program.now held.old result held.new }
    ensures behind { SameElementsBehind instance segment held.old held.new }
    ensures datas { SameDatas instance held.old held.new }
{
    match &declared.mode {
        ElemMode::Passive => Acted::Goes,
        ElemMode::Declared => {
            drop_element(program, held, instance, segment);
            Acted::Goes
        }
        ElemMode::Active { table, offset } => {
            let at = offset_of(globals, offset);
            let len = declared.items.len();
            match init_table(program, held, instance, segment, *table, at, len) {
                Acted::Goes => {
                    drop_element(program, held, instance, segment);
                    Acted::Goes
                }
                ended => ended,
            }
        }
    }
}

/// The items behind the first so many.
pub(crate) fn skip<T>(items: &[T], count: usize) -> &[T]
    ensures items { result.now ≡ drop count items.now }
    ensures len { length result.now ≡ length items.now - count }
{
    if count > items.len() {
        return &[];
    }
    &items[count..]
}

// Takes the element segments of an instance from this number on, in order; it ends with the first that is out of range.
fn take_elements(
    program: &Program,
    held: &mut Held,
    instance: usize,
    globals: &[RawVal],
    declared: &[ElemDecl],
    first: usize,
) -> Acted
    requires stand { ElementsStand held.old instance first (drop first declared.now) }
    ensures takes { Takes (λ fs m go. take_elements instance fs globals.now m first (drop first declared.now) go)
        program.now held.old result held.new }
    ensures datas { SameDatas instance held.old held.new }
{
    let mut rest = skip(declared, first);
    let mut segment = first;
    'elements: while let [element, tail @ ..] = rest {
        match take_element(program, held, instance, globals, segment, element) {
            Acted::Goes => {}
            ended => return ended,
        }
        segment += 1;
        rest = tail;
    }
    Acted::Goes
}

// Takes a data segment of an instance, over the values of its globals.
fn take_data(
    program: &Program,
    held: &mut Held,
    instance: usize,
    globals: &[RawVal],
    segment: usize,
    declared: &DataDecl,
) -> Acted
    requires sized { HasSize (length declared.now.bytes) (data_of held.old instance segment) }
    ensures takes { Takes (λ fs m go. take_data instance fs globals.now m segment declared.now.mode go)
        program.now held.old result held.new }
    ensures behind { SameDatasBehind instance segment held.old held.new }
{
    match &declared.mode {
        DataMode::Passive => Acted::Goes,
        DataMode::Active { memory, offset } => {
            let at = offset_of(globals, offset);
            let len = declared.bytes.len();
            match init_memory(program, held, instance, segment, *memory, at, len) {
                Acted::Goes => {
                    drop_data(program, held, instance, segment);
                    Acted::Goes
                }
                ended => ended,
            }
        }
    }
}

// Takes the data segments of an instance from this number on, in order; it ends with the first that is out of range.
fn take_datas(
    program: &Program,
    held: &mut Held,
    instance: usize,
    globals: &[RawVal],
    declared: &[DataDecl],
    first: usize,
) -> Acted
    requires stand { DatasStand held.old instance first (drop first declared.now) }
    ensures { (base : Machine) (fs : List ℕ) →
        take_datas instance fs globals.now (run_machine base program.now held.old) first (drop first declared.now)
        ≡ followed result (run_machine base program.now held.new) Done }
{
    let mut rest = skip(declared, first);
    let mut segment = first;
    'datas: while let [data, tail @ ..] = rest {
        match take_data(program, held, instance, globals, segment, data) {
            Acted::Goes => {}
            ended => return ended,
        }
        segment += 1;
        rest = tail;
    }
    Acted::Goes
}

/// Takes the segments of a new instance that do not lead: those of elements in order, and then those of data. An active one
/// is written whole and is then dropped, and a declared one is dropped. The first that is out of range ends this; what was
/// done before it stays.
pub(crate) fn take_segments(
    program: &Program,
    held: &mut Held,
    instance: usize,
    globals: &[RawVal],
    validated: &Module,
) -> Acted
    requires elements { ElementsStand held.old instance (leading_elements validated.now)
        (drop (leading_elements validated.now) validated.now.elements) }
    requires datas { DatasStand held.old instance (leading_datas validated.now)
        (drop (leading_datas validated.now) validated.now.datas) }
    ensures { (base : Machine) (fs : List ℕ) →
        take_others instance fs globals.now (run_machine base program.now held.old) validated.now
        ≡ followed result (run_machine base program.now held.new) Done }
{
    let elements = validated.decl().elements.as_slice();
    let datas = validated.decl().datas.as_slice();
    let first = validated.leading_elements();
    let next = validated.leading_datas();
    match take_elements(program, held, instance, globals, elements, first) {
        Acted::Goes => take_datas(program, held, instance, globals, datas, next),
        ended => ended,
    }
}
