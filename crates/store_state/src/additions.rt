ghost use Rattle.std.specs.Prelude.{◌≡◌, ◌++◌, ◌∷◌, [], OnOk, OnErr};
ghost use Rattle.std.specs.List.{All};
ghost use Rattle.wasm_objects.specs.Objects.{memories_of, tables_of};
ghost use Rattle.store_state.specs.Parts.{program_parts};
ghost use Rattle.store_state.specs.Within.{IsMemorySized, IsTableSized};

use crate::function::Function;
use crate::held::Held;
use crate::instance::Instance;
use crate::program::Program;
use crate::segments::Segments;
use wasm_objects::{GlobalObject, MemoryObject, TableObject};
use wasm_types::{FuncType, OutOfMemory};

/// What a store is to have more of when an instance is made: of each kind those that its module defines, the instance,
/// and its segments.
#[derive(Drop)]
pub struct NewObjects {
    pub memories: Vec<MemoryObject>,
    pub tables: Vec<TableObject>,
    pub globals: Vec<GlobalObject>,
    pub tags: Vec<FuncType>,
    pub functions: Vec<Function>,
    pub instance: Instance,
    pub segments: Segments,
}

/// All of these objects more, each at the end of its list. `OutOfMemory` changes nothing.
pub fn add_objects(
    program: &mut Program,
    held: &mut Held,
    objects: NewObjects,
) -> Result<(), OutOfMemory>
    requires memories { All IsMemorySized (memories_of objects.memories.items) }
    requires tables { All IsTableSized (tables_of objects.tables.items) }
    ensures program_ok { OnOk result (program.new ≡ program_parts
        (program.old.functions ++ objects.functions.items) (program.old.instances ++ objects.instance ∷ [])) }
    ensures held_ok { OnOk result (held.new ≡ record held.old {
      memories = held.old.memories ++ memories_of objects.memories.items;
      tables = held.old.tables ++ tables_of objects.tables.items;
      globals = held.old.globals ++ objects.globals.items;
      tags = held.old.tags ++ objects.tags.items;
      segments = held.old.segments ++ objects.segments ∷ [];
    }) }
    ensures program_err { OnErr result (program.new ≡ program.old) }
    ensures held_err { OnErr result (held.new ≡ held.old) }
{
    let functions = program.function_count();
    let instances = program.instance_count();
    program.append(objects.functions, objects.instance)?;
    match held.append(
        objects.memories,
        objects.tables,
        objects.globals,
        objects.tags,
        objects.segments,
    ) {
        Ok(()) => Ok(()),
        Err(why) => {
            program.truncate(functions, instances);
            Err(why)
        }
    }
}
