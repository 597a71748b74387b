ghost use Rattle.std.specs.Prelude.{◌≡◌, ◌++◌, IfOk, OnOk};
ghost use Rattle.std.specs.List.{filter_map};
ghost use Rattle.spec_execution.specs.Allocation.{from};
ghost use Rattle.instance_parts.specs.Spaces.{number_as};

use std::alloc::Global;
use wasm_types::OutOfMemory;
use wasm_values::Extern;

/// An index space.
#[derive(Clone, Copy)]
pub(crate) enum Space {
    Functions,
    Tables,
    Memories,
    Globals,
    Tags,
}

// The number in the store of an object, where it is one of this space.
fn number_as(space: Space, object: Extern) -> Option<usize>
    ensures { result ≡ number_as space object }
{
    match space {
        Space::Functions => Some(object.into_func()?.index()),
        Space::Tables => Some(object.into_table()?.index()),
        Space::Memories => Some(object.into_memory()?.index()),
        Space::Globals => Some(object.into_global()?.index()),
        Space::Tags => Some(object.into_tag()?.index()),
    }
}

/// The numbers of the imports of one space, in order.
pub(crate) fn imported_numbers(
    alloc: Global,
    space: Space,
    imports: &[Extern],
) -> Result<Vec<usize>, OutOfMemory>
    ensures { IfOk result (λ numbers. numbers.items ≡ filter_map (number_as space) imports.now) }
{
    let mut numbers = Vec::new(alloc);
    let mut rest = imports;
    'imports: while let [import, tail @ ..] = rest {
        if let Some(number) = number_as(space, *import) {
            numbers.push(number)?;
        }
        rest = tail;
    }
    Ok(numbers)
}

/// So many numbers more, from the first one on. Where they pass the range of numbers, so would what they stand for.
pub(crate) fn add_numbers(
    numbers: &mut Vec<usize>,
    first: usize,
    count: usize,
) -> Result<(), OutOfMemory>
    ensures { OnOk result (numbers.new.items ≡ numbers.old.items ++ from first count) }
{
    let Some(end) = first.checked_add(count) else {
        return Err(OutOfMemory);
    };
    numbers.reserve(count)?;
    for number in first..end {
        numbers.push(number)?;
    }
    Ok(())
}

/// An index space of a new instance: the numbers of what is imported, and behind them so many from the first one on.
pub(crate) fn space_of(
    alloc: Global,
    space: Space,
    imports: &[Extern],
    first: usize,
    count: usize,
) -> Result<Vec<usize>, OutOfMemory>
    ensures { IfOk result (λ numbers.
        numbers.items ≡ filter_map (number_as space) imports.now ++ from first count) }
{
    let mut numbers = imported_numbers(alloc, space, imports)?;
    add_numbers(&mut numbers, first, count)?;
    Ok(numbers)
}
