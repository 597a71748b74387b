ghost use Rattle.std.specs.Prelude.{◌≡◌, ◌+◌, ◌++◌, ◌∷◌, [], length, List, OnOk, OnErr};
ghost use Rattle.std.specs.List.{All};
ghost use Rattle.wasm_objects.specs.Objects.{memories_of, tables_of};
ghost use Rattle.store_state.specs.Machine.{instances_of};
ghost use Rattle.store_state.specs.Parts.{Names};
ghost use Rattle.store_state.specs.Within.{IsMemorySized, IsTableSized};

use crate::held::Held;
use crate::lists::append_reserved;
use crate::memories::Memories;
use crate::segments::{Segments, fit};
use crate::tables::Tables;
use std::alloc::Global;
use wasm_objects::{GlobalObject, MemoryObject, TableObject};
use wasm_types::{FuncType, OutOfMemory};

impl Held {
    /// A memory more.
    pub fn add_memory(&mut self, object: MemoryObject) -> Result<(), OutOfMemory>
        requires { IsMemorySized object.memory }
        ensures ok { OnOk result (self.new ≡ record self.old { memories = self.old.memories ++ object.memory ∷ [] }) }
        ensures err { OnErr result (self.new ≡ self.old) }
    {
        self.memories.push(object)
    }

    /// A table more.
    pub fn add_table(&mut self, object: TableObject) -> Result<(), OutOfMemory>
        requires { IsTableSized object.table }
        ensures ok { OnOk result (self.new ≡ record self.old { tables = self.old.tables ++ object.table ∷ [] }) }
        ensures err { OnErr result (self.new ≡ self.old) }
    {
        self.tables.push(object)
    }

    /// A global more.
    pub fn add_global(&mut self, object: GlobalObject) -> Result<(), OutOfMemory>
        ensures ok { OnOk result (self.new ≡ record self.old { globals = self.old.globals ++ object ∷ [] }) }
        ensures err { OnErr result (self.new ≡ self.old) }
    {
        self.globals.push(object)?;
        Ok(())
    }

    /// A tag more, by its type.
    pub fn add_tag(&mut self, ty: FuncType) -> Result<(), OutOfMemory>
        ensures ok { OnOk result (self.new ≡ record self.old { tags = self.old.tags ++ ty ∷ [] }) }
        ensures err { OnErr result (self.new ≡ self.old) }
    {
        self.tags.push(ty)?;
        Ok(())
    }

    /// The segments of an instance more.
    pub fn add_segments(&mut self, segments: Segments) -> Result<(), OutOfMemory>
        ensures ok { OnOk result (self.new ≡ record self.old { segments = self.old.segments ++ segments ∷ [] }) }
        ensures err { OnErr result (self.new ≡ self.old) }
    {
        self.segments.push(segments)?;
        Ok(())
    }

    /// Memories, tables, globals and tags more, and the segments of an instance, each at the end.
    pub(crate) fn append(
        &mut self,
        memories: Vec<MemoryObject>,
        tables: Vec<TableObject>,
        globals: Vec<GlobalObject>,
        tags: Vec<FuncType>,
        segments: Segments,
    ) -> Result<(), OutOfMemory>
        requires memories { All IsMemorySized (memories_of memories.items) }
        requires tables { All IsTableSized (tables_of tables.items) }
        ensures ok { OnOk result (self.new ≡ record self.old {
          memories = self.old.memories ++ memories_of memories.items;
          tables = self.old.tables ++ tables_of tables.items;
          globals = self.old.globals ++ globals.items;
          tags = self.old.tags ++ tags.items;
          segments = self.old.segments ++ segments ∷ [];
        }) }
        ensures err { OnErr result (self.new ≡ self.old) }
    {
        self.globals.reserve(globals.len())?;
        self.tags.reserve(tags.len())?;
        self.segments.reserve(1)?;
        append_sized(&mut self.memories, &mut self.tables, memories, tables)?;
        append_reserved(&mut self.globals, globals);
        append_reserved(&mut self.tags, tags);
        self.segments.push_reserved(segments);
        Ok(())
    }

    /// Holds segments for just so many instances: one for which none were held has none from now on. It is the same to so
    /// many instances, also where memory ran out.
    pub fn fit_segments(&mut self, alloc: Global, instances: usize) -> Result<(), OutOfMemory>
        ensures same { (ns : List Names) → length ns ≡ instances →
            instances_of ns self.new.segments ≡ instances_of ns self.old.segments }
        ensures fitted { OnOk result (length self.new.segments ≡ instances) }
        ensures rest { self.new ≡ record self.old { segments = self.new.segments } }
    {
        fit(alloc, &mut self.segments, instances)?;
        Ok(())
    }
}

// More memories and tables, each at the end; where there is no room for the tables, the memories are taken off again.
fn append_sized(
    memories: &mut Memories,
    tables: &mut Tables,
    more_memories: Vec<MemoryObject>,
    more_tables: Vec<TableObject>,
) -> Result<(), OutOfMemory>
    requires memories { All IsMemorySized (memories_of more_memories.items) }
    requires tables { All IsTableSized (tables_of more_tables.items) }
    ensures memories_ok { OnOk result (memories.new ≡ memories.old ++ memories_of more_memories.items) }
    ensures tables_ok { OnOk result (tables.new ≡ tables.old ++ tables_of more_tables.items) }
    ensures memories_err { OnErr result (memories.new ≡ memories.old) }
    ensures tables_err { OnErr result (tables.new ≡ tables.old) }
{
    let before = memories.len();
    memories.append(more_memories)?;
    match tables.append(more_tables) {
        Ok(()) => Ok(()),
        Err(why) => {
            memories.truncate(before);
            Err(why)
        }
    }
}
