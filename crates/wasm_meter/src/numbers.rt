ghost use Rattle.std.specs.Prelude.{◌≡◌, ◌+◌, suc, nat_le};
ghost use Rattle.std.specs.Bool.{OnTrue, OnFalse};
ghost use Rattle.wasm_meter.specs.Counts.{numbers};

use std::marker::Model;

/// A number of instances, of memories and of tables.
#[derive(Drop)]
pub(crate) struct Numbers {
    instances: usize,
    memories: usize,
    tables: usize,
}

impl Model for Numbers {
    ghost use Rattle.wasm_meter.specs.Counts.{Numbers, numbers, numbers_code};

    ghost Value = { Numbers };

    ghost coded = { numbers_code };

    ghost view = { λ n. numbers n.instances n.memories n.tables };
}

impl Numbers {
    /// These numbers.
    pub(crate) fn new(instances: usize, memories: usize, tables: usize) -> Numbers
        ensures { result ≡ numbers instances memories tables }
    {
        Numbers {
            instances,
            memories,
            tables,
        }
    }

    /// One instance more, where that is within the limit; `false` where it is not, and then nothing changes.
    pub(crate) fn raise_instances(&mut self, limits: &Numbers) -> bool
        ensures within { result ≡ nat_le (suc self.old.instances) limits.now.instances }
        ensures raised { OnTrue result (self.new ≡ numbers (suc self.old.instances) self.old.memories self.old.tables) }
        ensures refused { OnFalse result (self.new ≡ self.old) }
    {
        if self.instances >= limits.instances {
            return false;
        }
        self.instances += 1;
        true
    }

    /// So many memories more, where that is within the limit; `false` where it is not, and then nothing changes.
    pub(crate) fn raise_memories(&mut self, number: usize, limits: &Numbers) -> bool
        ensures within { result ≡ nat_le (self.old.memories + number) limits.now.memories }
        ensures raised { OnTrue result
            (self.new ≡ numbers self.old.instances (self.old.memories + number) self.old.tables) }
        ensures refused { OnFalse result (self.new ≡ self.old) }
    {
        if number > limits.memories || self.memories > limits.memories - number {
            return false;
        }
        self.memories += number;
        true
    }

    /// So many tables more, where that is within the limit; `false` where it is not, and then nothing changes.
    pub(crate) fn raise_tables(&mut self, number: usize, limits: &Numbers) -> bool
        ensures within { result ≡ nat_le (self.old.tables + number) limits.now.tables }
        ensures raised { OnTrue result
            (self.new ≡ numbers self.old.instances self.old.memories (self.old.tables + number)) }
        ensures refused { OnFalse result (self.new ≡ self.old) }
    {
        if number > limits.tables || self.tables > limits.tables - number {
            return false;
        }
        self.tables += number;
        true
    }
}
