ghost use Rattle.std.specs.Bool.{OnTrue, OnFalse};
ghost use Rattle.std.specs.Prelude.{◌≡◌, ◌+◌, suc, nat_le};
ghost use Rattle.wasm_meter.specs.Counts.{numbers, count_parts, bumped};

use crate::numbers::Numbers;
use std::marker::Model;
use wasm_types::Resource;

/// How many instances, memories and tables instantiation may make, as a store is made.
const MOST_MADE: usize = 10_000;

/// How many instances, memories and tables a store made by instantiation, and the most of each. Nothing lowers the
/// first, and what a host makes itself is not counted.
#[derive(Drop)]
pub struct Counts {
    made: Numbers,
    limits: Numbers,
}

impl Model for Counts {
    ghost use Rattle.wasm_meter.specs.Counts.{CountParts, count_parts, counts_code};

    ghost Value = { CountParts };

    ghost coded = { counts_code };

    ghost view = { λ c. count_parts c.made c.limits };
}

impl Counts {
    /// Nothing made, and 10,000 as the most of each.
    pub fn new() -> Counts
        ensures { result ≡ count_parts (numbers 0 0 0) (numbers 10000 10000 10000) }
    {
        Counts {
            made: Numbers::new(0, 0, 0),
            limits: Numbers::new(MOST_MADE, MOST_MADE, MOST_MADE),
        }
    }

    /// Makes these the most of each. More than that may have been made before.
    pub fn set_limits(&mut self, instances: usize, memories: usize, tables: usize)
        ensures { self.new ≡ count_parts self.old.made (numbers instances memories tables) }
    {
        self.limits = Numbers::new(instances, memories, tables);
    }

    /// Counts one instance more, where that is within the limit; `false` where it is not, and then nothing changes.
    pub fn raise_instances(&mut self) -> bool
        ensures within { result ≡ nat_le (suc self.old.made.instances) self.old.limits.instances }
        ensures raised { OnTrue result (self.new ≡ count_parts
            (numbers (suc self.old.made.instances) self.old.made.memories self.old.made.tables) self.old.limits) }
        ensures refused { OnFalse result (self.new ≡ self.old) }
    {
        self.made.raise_instances(&self.limits)
    }

    /// Counts so many memories more, where that is within the limit; `false` where it is not, and then nothing changes.
    pub fn raise_memories(&mut self, number: usize) -> bool
        ensures within { result ≡ nat_le (self.old.made.memories + number) self.old.limits.memories }
        ensures raised { OnTrue result (self.new ≡ count_parts
            (numbers self.old.made.instances (self.old.made.memories + number) self.old.made.tables) self.old.limits) }
        ensures refused { OnFalse result (self.new ≡ self.old) }
    {
        self.made.raise_memories(number, &self.limits)
    }

    /// Counts so many tables more, where that is within the limit; `false` where it is not, and then nothing changes.
    pub fn raise_tables(&mut self, number: usize) -> bool
        ensures within { result ≡ nat_le (self.old.made.tables + number) self.old.limits.tables }
        ensures raised { OnTrue result (self.new ≡ count_parts
            (numbers self.old.made.instances self.old.made.memories (self.old.made.tables + number)) self.old.limits) }
        ensures refused { OnFalse result (self.new ≡ self.old) }
    {
        self.made.raise_tables(number, &self.limits)
    }

    /// Counts one instance more, and so many memories and tables.
    ///
    /// The first of the three, in this order, of which there would be more than the limit is refused: neither that one
    /// nor those behind it are raised, and those before it stay raised.
    pub fn bump(&mut self, memories: usize, tables: usize) -> Result<(), Resource>
        ensures answer { result ≡ (bumped memories tables self.old).0 }
        ensures state { self.new ≡ (bumped memories tables self.old).1 }
    {
        if !self.raise_instances() {
            return Err(Resource::Instance);
        }
        if !self.raise_memories(memories) {
            return Err(Resource::Memory);
        }
        if !self.raise_tables(tables) {
            return Err(Resource::Table);
        }
        Ok(())
    }
}
