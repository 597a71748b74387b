ghost use Rattle.std.specs.Prelude.{◌≡◌, nat_eq};
ghost use Rattle.binary_types.specs.Reading as reading;
ghost use Rattle.binary_types.specs.Reading.{Reads};
ghost use Rattle.wasm_binary.specs.Sections as forms;
ghost use Rattle.wasm_binary.specs.Sections.{Fills};

use crate::content::content;
use crate::sections::{SectionKind, Sections};
use binary_types::{BinaryFault, byte, whole_32};
use std::alloc::Global;
use wasm_leb::Cursor;
use wasm_types::EngineId;

/// A custom section behind its id: a size, a name, and bytes that are not looked at.
fn custom(input: &mut Cursor<'_>) -> Result<(), BinaryFault>
    ensures { Reads (reading.sized forms.custom input.old) result input.new }
{
    let len = whole_32(input)?;
    let Some(mut part) = input.part(len as usize) else {
        return Err(BinaryFault::Malformed);
    };
    match part.name() {
        Some(_) => Ok(()),
        None => Err(BinaryFault::Malformed),
    }
}

/// A size, and what a section of this kind holds in so many bytes.
fn sized_content(
    alloc: Global,
    engine: EngineId,
    kind: SectionKind,
    sections: &mut Sections,
    input: &mut Cursor<'_>,
) -> Result<(), BinaryFault>
    ensures { Fills (reading.sized (forms.content engine kind sections.old) input.old) result sections.new input.new }
{
    let len = whole_32(input)?;
    let Some(mut part) = input.part(len as usize) else {
        return Err(BinaryFault::Malformed);
    };
    content(alloc, engine, kind, sections, &mut part)?;
    if part.left().is_empty() {
        Ok(())
    } else {
        Err(BinaryFault::Malformed)
    }
}

/// A section of this kind behind its id, which stands only behind those before it in their order.
fn known_section(
    alloc: Global,
    engine: EngineId,
    kind: SectionKind,
    sections: &mut Sections,
    input: &mut Cursor<'_>,
) -> Result<(), BinaryFault>
    ensures { Fills (forms.known_section engine sections.old kind input.old) result sections.new input.new }
{
    let rank = kind.rank();
    if sections.last >= rank {
        return Err(BinaryFault::Malformed);
    }
    sized_content(alloc, engine, kind, sections, input)?;
    sections.last = rank;
    Ok(())
}

fn custom_section(sections: &mut Sections, input: &mut Cursor<'_>) -> Result<(), BinaryFault>
    ensures { Fills (forms.custom_section sections.old input.old) result sections.new input.new }
{
    let _ = sections;
    custom(input)
}

fn section_of(
    alloc: Global,
    engine: EngineId,
    id: u8,
    sections: &mut Sections,
    input: &mut Cursor<'_>,
) -> Result<(), BinaryFault>
    ensures { Fills (forms.section_if (nat_eq id 0) engine id sections.old input.old) result sections.new input.new }
{
    if id == 0 {
        return custom_section(sections, input);
    }
    match SectionKind::of_id(id) {
        Some(kind) => known_section(alloc, engine, kind, sections, input),
        None => Err(BinaryFault::Malformed),
    }
}

/// One section.
fn section(
    alloc: Global,
    engine: EngineId,
    sections: &mut Sections,
    input: &mut Cursor<'_>,
) -> Result<(), BinaryFault>
    ensures { Fills (forms.section engine sections.old input.old) result sections.new input.new }
{
    let id = byte(input)?;
    section_of(alloc, engine, id, sections, input)
}

/// All sections up to the end.
pub(crate) fn all_sections(
    alloc: Global,
    engine: EngineId,
    sections: &mut Sections,
    input: &mut Cursor<'_>,
) -> Result<(), BinaryFault>
    ensures { Fills (forms.sections engine sections.old input.old) result sections.new input.new }
{
    'sections: while !input.left().is_empty() {
        section(alloc, engine, sections, input)?;
    }
    Ok(())
}
