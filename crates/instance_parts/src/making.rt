ghost use Rattle.std.specs.Prelude.{◌≡◌, drop, length, IfOk, OnOk, OnErr};
ghost use Rattle.law_images.specs.Leading.{AreAligned, led};
ghost use Rattle.spec_execution.specs.Allocation.{global_values, imported_values, function_numbers, global_numbers};
ghost use Rattle.spec_machine.specs.Machine.{Machine};
ghost use Rattle.store_state.specs.Machine.{run_machine, segments_at};
ghost use Rattle.store_state.specs.Parts.{ProgramParts};
ghost use Rattle.instance_parts.specs.Objects.{names_with, AreNew, AreShaped};
ghost use Rattle.instance_parts.specs.Preparing.{AreInRange, IsBehind, ending_of, IsMade};

use crate::constants::global_values;
use crate::objects::{globals_with, new_functions, new_memories, new_tables, new_tags, values_at};
use crate::segments::new_segments;
use crate::spaces::{Space, add_numbers, imported_numbers, space_of};
use crate::taking::{skip, take_segments};
use code_straight::Acted;
use std::alloc::Global;
use store_state::{Held, Instance, NewObjects, Program, add_objects};
use wasm_module::Module;
use wasm_objects::RawVal;
use wasm_types::OutOfMemory;
use wasm_values::{Extern, Trap};

/// An instance that was made, by its number, and what its segments came to.
#[derive(Clone, Copy)]
pub struct Made {
    pub number: usize,
    pub ending: Ending,
}

/// What the turn that made an instance came to.
#[derive(Clone, Copy)]
pub enum Ending {
    /// Nothing is left to do.
    Whole,
    /// The start function is to be entered, by its number.
    Starts(usize),
    /// A segment was out of range.
    Trapped(Trap),
    /// A segment or the start function fits no rule, as in no valid module.
    Sticks,
}

// What the constant expressions of a new instance speak of: the numbers of its functions, those of its globals, and the
// values of the globals that are imported.
#[derive(Drop)]
struct Numbered {
    functions: Vec<usize>,
    globals: Vec<usize>,
    imported: Vec<RawVal>,
}

// The objects of an instance that is to be made, and the values of its globals.
#[derive(Drop)]
struct Prepared {
    objects: NewObjects,
    values: Vec<RawVal>,
    // What is due behind the segments.
    behind: Ending,
}

fn number_objects(
    alloc: Global,
    program: &Program,
    held: &Held,
    validated: &Module,
    imports: &[Extern],
) -> Result<Numbered, OutOfMemory>
    ensures functions { IfOk result (λ numbered. (base : Machine) → numbered.functions.items
        ≡ function_numbers (run_machine base program.now held.now) validated.now imports.now) }
    ensures globals { IfOk result (λ numbered. (base : Machine) → numbered.globals.items
        ≡ global_numbers (run_machine base program.now held.now) validated.now imports.now) }
    ensures imported { IfOk result (λ numbered. (base : Machine) → numbered.imported.items
        ≡ imported_values (run_machine base program.now held.now) imports.now) }
{
    let decl = validated.decl();
    let functions = space_of(
        alloc,
        Space::Functions,
        imports,
        program.function_count(),
        decl.functions.len(),
    )?;
    let mut globals = imported_numbers(alloc, Space::Globals, imports)?;
    let imported = values_at(alloc, held, globals.as_slice())?;
    add_numbers(&mut globals, held.global_count(), decl.globals.len())?;
    Ok(Numbered {
        functions,
        globals,
        imported,
    })
}

// What an instance names: its functions have these numbers and its globals those.
fn name_objects(
    alloc: Global,
    held: &Held,
    validated: &Module,
    imports: &[Extern],
    functions: Vec<usize>,
    globals: Vec<usize>,
) -> Result<Instance, OutOfMemory>
    ensures { IfOk result (λ instance. (base : Machine) (program : ProgramParts) → instance
        ≡ names_with (run_machine base program held.now) validated.now imports.now functions.items globals.items) }
{
    let decl = validated.decl();
    let tables = space_of(
        alloc,
        Space::Tables,
        imports,
        held.table_count(),
        decl.tables.len(),
    )?;
    let memories = space_of(
        alloc,
        Space::Memories,
        imports,
        held.memory_count(),
        decl.memories.len(),
    )?;
    let tags = space_of(
        alloc,
        Space::Tags,
        imports,
        held.tag_count(),
        decl.tags.len(),
    )?;
    let shared = validated.clone()?;
    Ok(Instance::new(shared, functions, tables, memories, globals, tags))
}

// What is due behind the segments, over the numbers of the functions.
fn behind_segments(functions: &[usize], start: Option<u32>) -> Ending
    ensures { IsBehind functions.now start result }
{
    match start {
        None => Ending::Whole,
        Some(index) => match functions.get(index as usize) {
            Some(number) => Ending::Starts(*number),
            None => Ending::Sticks,
        },
    }
}

// The new objects of an instance, which are none of the store's yet, with the segments taken that lead; and what is done
// with them.
fn prepare(
    alloc: Global,
    program: &Program,
    held: &Held,
    validated: &Module,
    imports: &[Extern],
) -> Result<Prepared, OutOfMemory>
    ensures objects { IfOk result (λ made. (base : Machine) →
        AreNew (run_machine base program.now held.now) validated.now imports.now made.objects) }
    ensures shaped { IfOk result (λ made. AreShaped validated.now made.objects) }
    ensures values { IfOk result (λ made. (base : Machine) → made.values.items
        ≡ global_values (run_machine base program.now held.now) validated.now imports.now) }
    ensures behind { IfOk result (λ made. (base : Machine) → IsBehind
        (function_numbers (run_machine base program.now held.now) validated.now imports.now) validated.now.start
        made.behind) }
{
    let decl = validated.decl();
    let numbered = number_objects(alloc, program, held, validated, imports)?;
    let numbers = numbered.functions;
    let names = numbered.globals;
    let imported = numbered.imported;
    let memories = new_memories(alloc, validated)?;
    let tables = new_tables(alloc, numbers.as_slice(), imported.as_slice(), validated)?;
    let count = imported.len();
    let values = global_values(numbers.as_slice(), imported, decl.globals.as_slice())?;
    let defined = skip(values.as_slice(), count);
    let globals = globals_with(alloc, defined, decl.globals.as_slice())?;
    let tags = new_tags(alloc, decl)?;
    let functions = new_functions(alloc, program.instance_count(), decl)?;
    let segments = new_segments(alloc, numbers.as_slice(), values.as_slice(), validated)?;
    let behind = behind_segments(numbers.as_slice(), decl.start);
    let instance = name_objects(alloc, held, validated, imports, numbers, names)?;
    Ok(Prepared {
        objects: NewObjects {
            memories,
            tables,
            globals,
            tags,
            functions,
            instance,
            segments,
        },
        values,
        behind,
    })
}

// These objects more, which are those of a new instance. `OutOfMemory` changes nothing.
fn add_instance(
    alloc: Global,
    program: &mut Program,
    held: &mut Held,
    validated: &Module,
    imports: &[Extern],
    objects: NewObjects,
) -> Result<(), OutOfMemory>
    requires new { (base : Machine) →
        AreNew (run_machine base program.old held.old) validated.now imports.now objects }
    requires shaped { AreShaped validated.now objects }
    requires range { AreInRange validated.now }
    ensures ok { (base : Machine) → OnOk result (run_machine base program.new held.new
        ≡ led (run_machine base program.old held.old) validated.now imports.now) }
    ensures err { (base : Machine) → OnErr result (run_machine base program.new held.new
        ≡ run_machine base program.old held.old) }
    ensures segments { OnOk result
        (segments_at held.new.segments (length program.old.instances) ≡ objects.segments) }
{
    held.fit_segments(alloc, program.instance_count())?;
    add_objects(program, held, objects)
}

// What the turn came to, by its segments and what is due behind them.
fn ending_of(acted: Acted, behind: Ending) -> Ending
    ensures { result ≡ ending_of acted behind }
{
    match acted {
        Acted::Goes => behind,
        Acted::Traps(trap) => Ending::Trapped(trap),
        Acted::Sticks => Ending::Sticks,
    }
}

/// Makes an instance of a module over imports that were looked at, whose counts were raised and whose growths were
/// granted: one turn, which appends its objects and takes its segments. Its tables and memories begin with the images of the
/// module, so that only those segments are taken then that do not lead. All room is made before, so that nothing fails behind
/// it but a segment.
///
/// `OutOfMemory` comes before that turn and changes nothing.
pub fn make_instance(
    alloc: Global,
    program: &mut Program,
    held: &mut Held,
    validated: &Module,
    imports: &[Extern],
) -> Result<Made, OutOfMemory>
    requires range { AreInRange validated.now }
    requires aligned { AreAligned validated.now imports.now }
    ensures ok { (base : Machine) → IfOk result (λ made. IsMade validated.now imports.now
        (run_machine base program.old held.old) made (run_machine base program.new held.new)) }
    ensures err { (base : Machine) → OnErr result (run_machine base program.new held.new
        ≡ run_machine base program.old held.old) }
{
    let number = program.instance_count();
    let prepared = prepare(alloc, program, held, validated, imports)?;
    add_instance(alloc, program, held, validated, imports, prepared.objects)?;
    let acted = take_segments(program, held, number, prepared.values.as_slice(), validated);
    Ok(Made {
        number,
        ending: ending_of(acted, prepared.behind),
    })
}
