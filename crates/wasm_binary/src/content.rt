ghost use Rattle.std.specs.Prelude.{◌≡◌};
ghost use Rattle.wasm_binary.specs.Sections as forms;
ghost use Rattle.wasm_binary.specs.Sections.{Fills};

use crate::bodies::Bodies;
use crate::sections::{SectionKind, Sections, is_count};
use binary_types::{
    BinaryFault, DataReader, ElementReader, ExportReader, GlobalReader, ImportReader, MemoryReader,
    TableReader, TagReader, TypeIndexReader, listed, times, whole_32,
};
use std::alloc::Global;
use wasm_leb::Cursor;
use wasm_types::EngineId;

fn type_section(
    alloc: Global,
    engine: EngineId,
    sections: &mut Sections,
    input: &mut Cursor<'_>,
) -> Result<(), BinaryFault>
    ensures { Fills (forms.type_section engine sections.old input.old) result sections.new input.new }
{
    let types = binary_types::type_section(alloc, engine, input)?;
    sections.declared = types.len();
    sections.types = types;
    Ok(())
}

fn import_section(
    alloc: Global,
    sections: &mut Sections,
    input: &mut Cursor<'_>,
) -> Result<(), BinaryFault>
    ensures { Fills (forms.import_section sections.old input.old) result sections.new input.new }
{
    let types = sections.declared_types();
    let imports = listed(alloc, &ImportReader { types }, input)?;
    sections.imports = imports;
    Ok(())
}

fn function_section(
    alloc: Global,
    sections: &mut Sections,
    input: &mut Cursor<'_>,
) -> Result<(), BinaryFault>
    ensures { Fills (forms.function_section sections.old input.old) result sections.new input.new }
{
    let types = sections.declared_types();
    let functions = listed(alloc, &TypeIndexReader { types }, input)?;
    sections.functions = functions;
    Ok(())
}

fn table_section(
    alloc: Global,
    sections: &mut Sections,
    input: &mut Cursor<'_>,
) -> Result<(), BinaryFault>
    ensures { Fills (forms.table_section sections.old input.old) result sections.new input.new }
{
    let types = sections.declared_types();
    let tables = listed(alloc, &TableReader { types }, input)?;
    sections.tables = tables;
    Ok(())
}

fn memory_section(
    alloc: Global,
    sections: &mut Sections,
    input: &mut Cursor<'_>,
) -> Result<(), BinaryFault>
    ensures { Fills (forms.memory_section sections.old input.old) result sections.new input.new }
{
    let memories = listed(alloc, &MemoryReader, input)?;
    sections.memories = memories;
    Ok(())
}

fn tag_section(
    alloc: Global,
    sections: &mut Sections,
    input: &mut Cursor<'_>,
) -> Result<(), BinaryFault>
    ensures { Fills (forms.tag_section sections.old input.old) result sections.new input.new }
{
    let types = sections.declared_types();
    let tags = listed(alloc, &TagReader { types }, input)?;
    sections.tags = tags;
    Ok(())
}

fn global_section(
    alloc: Global,
    sections: &mut Sections,
    input: &mut Cursor<'_>,
) -> Result<(), BinaryFault>
    ensures { Fills (forms.global_section sections.old input.old) result sections.new input.new }
{
    let types = sections.declared_types();
    let globals = listed(alloc, &GlobalReader { types }, input)?;
    sections.globals = globals;
    Ok(())
}

fn export_section(
    alloc: Global,
    sections: &mut Sections,
    input: &mut Cursor<'_>,
) -> Result<(), BinaryFault>
    ensures { Fills (forms.export_section sections.old input.old) result sections.new input.new }
{
    let exports = listed(alloc, &ExportReader, input)?;
    sections.exports = exports;
    Ok(())
}

fn start_section(sections: &mut Sections, input: &mut Cursor<'_>) -> Result<(), BinaryFault>
    ensures { Fills (forms.start_section sections.old input.old) result sections.new input.new }
{
    let start = whole_32(input)?;
    sections.start = Some(start);
    Ok(())
}

fn element_section(
    alloc: Global,
    sections: &mut Sections,
    input: &mut Cursor<'_>,
) -> Result<(), BinaryFault>
    ensures { Fills (forms.element_section sections.old input.old) result sections.new input.new }
{
    let types = sections.declared_types();
    let elements = listed(alloc, &ElementReader { types }, input)?;
    sections.elements = elements;
    Ok(())
}

fn data_count_section(sections: &mut Sections, input: &mut Cursor<'_>) -> Result<(), BinaryFault>
    ensures { Fills (forms.data_count_section sections.old input.old) result sections.new input.new }
{
    let count = whole_32(input)?;
    sections.counted = Some(count);
    Ok(())
}

fn data_section(
    alloc: Global,
    sections: &mut Sections,
    input: &mut Cursor<'_>,
) -> Result<(), BinaryFault>
    ensures { Fills (forms.data_section sections.old input.old) result sections.new input.new }
{
    let count = whole_32(input)?;
    if !is_count(sections.counted, count as usize) {
        return Err(BinaryFault::Malformed);
    }
    let types = sections.declared_types();
    let datas = times(alloc, count, &DataReader { types }, input)?;
    sections.datas = datas;
    Ok(())
}

fn code_section(
    alloc: Global,
    engine: EngineId,
    sections: &mut Sections,
    input: &mut Cursor<'_>,
) -> Result<(), BinaryFault>
    ensures { Fills (forms.code_section engine sections.old input.old) result sections.new input.new }
{
    let context = sections.code_context(engine);
    let types = sections.take_types(alloc);
    let functions = sections.functions.as_slice();
    let code = binary_code::code_section(alloc, context, functions, types, input)?;
    sections.types = code.types;
    sections.bodies = Bodies::new(code.functions);
    Ok(())
}

/// What a section of this kind holds.
pub(crate) fn content(
    alloc: Global,
    engine: EngineId,
    kind: SectionKind,
    sections: &mut Sections,
    input: &mut Cursor<'_>,
) -> Result<(), BinaryFault>
    ensures { Fills (forms.content engine kind sections.old input.old) result sections.new input.new }
{
    match kind {
        SectionKind::Type => type_section(alloc, engine, sections, input),
        SectionKind::Import => import_section(alloc, sections, input),
        SectionKind::Function => function_section(alloc, sections, input),
        SectionKind::Table => table_section(alloc, sections, input),
        SectionKind::Memory => memory_section(alloc, sections, input),
        SectionKind::Tag => tag_section(alloc, sections, input),
        SectionKind::Global => global_section(alloc, sections, input),
        SectionKind::Export => export_section(alloc, sections, input),
        SectionKind::Start => start_section(sections, input),
        SectionKind::Element => element_section(alloc, sections, input),
        SectionKind::DataCount => data_count_section(sections, input),
        SectionKind::Code => code_section(alloc, engine, sections, input),
        SectionKind::Data => data_section(alloc, sections, input),
    }
}
