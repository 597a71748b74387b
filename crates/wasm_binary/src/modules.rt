ghost use Rattle.std.specs.Prelude.{◌≡◌, ◌≤◌, ◌^◌, IfOk};
ghost use Rattle.binary_code.specs.Bodies.{locals_in};
ghost use Rattle.binary_types.specs.Reading.{Reads};
ghost use Rattle.wasm_binary.specs.Modules as forms;

use crate::sections::Sections;
use crate::walk::all_sections;
use binary_types::{BinaryFault, fixed};
use std::alloc::Global;
use wasm_leb::Cursor;
use wasm_syntax::ModuleDecl;
use wasm_types::EngineId;

fn header(input: &mut Cursor<'_>) -> Result<(), BinaryFault>
    ensures { Reads (forms.header input.old) result input.new }
{
    fixed(0x00, input)?;
    fixed(0x61, input)?;
    fixed(0x73, input)?;
    fixed(0x6d, input)?;
    fixed(0x01, input)?;
    fixed(0x00, input)?;
    fixed(0x00, input)?;
    fixed(0x00, input)
}

/// The module that the bytes spell in WebAssembly's binary format, narrowed to this project's profile: of this engine and
/// with this number, which the host chooses.
///
/// It is read from left to right, and an `Err` is the first fault: `Malformed` where the bytes are in the grammar in no way,
/// and each other one at its place, as `BinaryFault` says. Memory may run out at any time, and does past 2^24 locals. Whether
/// the module is valid is for `Module::validate` to say.
pub fn read_module(
    alloc: Global,
    engine: EngineId,
    number: u64,
    bytes: &[u8],
) -> Result<ModuleDecl, BinaryFault>
    ensures read { forms.Answers (forms.module_of engine number bytes.now) result }
    ensures locals { IfOk result (λ m. locals_in m.functions ≤ 2 ^ 24) }
{
    let mut input = Cursor::new(bytes);
    header(&mut input)?;
    let mut sections = Sections::new(alloc);
    all_sections(alloc, engine, &mut sections, &mut input)?;
    if sections.is_whole() {
        Ok(sections.into_module(engine, number))
    } else {
        Err(BinaryFault::Malformed)
    }
}
