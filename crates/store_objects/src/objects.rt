ghost use Rattle.std.specs.Prelude.{◌≡◌, ◌+◌, nat_le, true};
ghost use Rattle.spec_machine.specs.Machine.{new_machine, numbers};
ghost use Rattle.spec_machine.specs.Values.{is_id};
ghost use Rattle.spec_machine.specs.WellFormed.{IsWellFormed};
ghost use Rattle.store_state.specs.Engines.{engine_parts};
ghost use Rattle.store_state.specs.Machine.{run_machine};
ghost use Rattle.store_objects.specs.Machines.{store_of, emptied};

use crate::sharing::SharedProgram;
use std::alloc::Global;
use std::marker::Model;
use store_state::{Engine, Flags, Held};
use wasm_values::StoreId;

/// All that a store holds but for the host's own: what a run of code reads, and what it changes. Contracts see the
/// machine, and it is well formed.
///
/// Each call that takes a handle, a value or a reference refuses with `WrongStore` what is not of this store, before all
/// else, and a refused call changes nothing. A growth is three steps: its rule, the answer of a limiter where the rule
/// asks for it, and the act, whose condition is that the growth is due and granted.
pub struct Objects {
    pub(crate) alloc: Global,
    pub(crate) id: StoreId,
    pub(crate) engine: Engine,
    pub(crate) program: SharedProgram,
    pub(crate) held: Held,
    pub(crate) flags: Flags,
}

// Written out, so that the crates above do not prove it again of all that is in it.
impl Drop for Objects {
    fn drop(self) {
        let Objects {
            alloc: _alloc,
            id: _id,
            engine: _engine,
            program: _program,
            held: _held,
            flags: _flags,
        } = self;
    }
}

impl Model for Objects {
    ghost use Rattle.spec_machine.specs.Machine.{Machine};
    ghost use Rattle.store_state.specs.Codes.{machine_code};
    ghost use Rattle.store_state.specs.Engines.{engine_parts};
    ghost use Rattle.spec_machine.specs.WellFormed.{IsWellFormed};
    ghost use Rattle.store_objects.specs.Machines.{machine_of};

    ghost Value = { Machine };

    ghost coded = { machine_code };

    ghost view = { λ o. machine_of o.id (engine_parts o.engine) o.flags o.program o.held };

    ghost invariant = { λ o. IsWellFormed (machine_of o.id (engine_parts o.engine) o.flags o.program o.held) };
}

/// What a store's objects are made of, for code that runs on them: what it reads and what it changes stand apart.
#[derive(Drop)]
pub struct ObjectParts {
    pub alloc: Global,
    pub id: StoreId,
    pub engine: Engine,
    pub flags: Flags,
    pub program: SharedProgram,
    pub held: Held,
}

impl Objects {
    /// The parts of a store's objects.
    pub fn into_parts(self) -> ObjectParts
        ensures whole { store_of result.id result.engine result.flags result.program result.held ≡ self }
        ensures formed { IsWellFormed (store_of result.id result.engine result.flags result.program result.held) }
    {
        let Objects {
            alloc,
            id,
            engine,
            program,
            held,
            flags,
        } = self;
        ObjectParts {
            alloc,
            id,
            engine,
            flags,
            program,
            held,
        }
    }

    /// The objects of these parts, which are those of a well-formed store.
    pub fn from_parts(parts: ObjectParts) -> Objects
        requires { IsWellFormed (store_of parts.id parts.engine parts.flags parts.program parts.held) }
        ensures { result ≡ store_of parts.id parts.engine parts.flags parts.program parts.held }
    {
        Objects {
            alloc: parts.alloc,
            id: parts.id,
            engine: parts.engine,
            flags: parts.flags,
            program: parts.program,
            held: parts.held,
        }
    }

    /// A store of no objects, which asks nobody. It takes no memory.
    pub fn new(alloc: Global, id: StoreId, engine: Engine) -> Objects
        ensures { result ≡ new_machine id (engine_parts engine) }
    {
        engine.keeps_limits();
        Objects {
            alloc,
            id,
            engine,
            program: SharedProgram::new(alloc),
            held: Held::new(alloc),
            flags: Flags {
                limited: false,
                hooked: false,
                behaving: false,
            },
        }
    }

    /// A store of the same id and engine, which asks whom this one asks and has no objects. It takes no memory.
    pub fn emptied(&self) -> Objects
        ensures { result ≡ emptied self.now }
    {
        self.engine.keeps_limits();
        Objects {
            alloc: self.alloc,
            id: self.id,
            engine: self.engine,
            program: SharedProgram::new(self.alloc),
            held: Held::new(self.alloc),
            flags: self.flags,
        }
    }

    /// These become what a run reads and what it changes of a store that has no objects.
    pub fn refill(&mut self, program: SharedProgram, held: Held)
        requires { IsWellFormed (run_machine self.old program held) }
        ensures { self.new ≡ run_machine self.old program held }
    {
        self.program = program;
        self.held = held;
    }

    /// Whom the store asks.
    pub fn flags(&self) -> Flags
        ensures limited { result.limited ≡ self.now.is_limited }
        ensures hooked { result.hooked ≡ self.now.is_hooked }
        ensures behaving { result.behaving ≡ self.now.is_behaving }
    {
        self.flags
    }

    /// The limiter is asked from now on, and there may be so many instances, and so many memories and tables that
    /// instances make.
    pub fn set_limiter(&mut self, instances: usize, memories: usize, tables: usize)
        ensures { self.new ≡ record self.old { limits = numbers instances memories tables; is_limited = true } }
    {
        self.held.set_limits(instances, memories, tables);
        self.flags.limited = true;
    }

    /// A hook is asked from now on.
    pub fn set_hooked(&mut self)
        ensures { self.new ≡ record self.old { is_hooked = true } }
    {
        self.flags.hooked = true;
    }

    /// Whether a deadline behaviour is asked from now on.
    pub fn set_behaving(&mut self, behaving: bool)
        ensures { self.new ≡ record self.old { is_behaving = behaving } }
    {
        self.flags.behaving = behaving;
    }

    /// The machine of every store is well formed.
    pub fn keeps_well_formed(&self)
        ensures { IsWellFormed self.now }
    {
        let _alloc = &self.alloc;
    }

    /// The store's id.
    pub fn id(&self) -> StoreId
        ensures { result ≡ self.now.id }
    {
        self.id
    }

    /// The engine that the store was made for.
    pub fn engine(&self) -> &Engine
        ensures { engine_parts result.now ≡ self.now.engine }
    {
        &self.engine
    }

    /// The allocator of the store.
    pub fn allocator(&self) -> Global {
        self.alloc
    }

    /// Whether an id is this store's.
    pub(crate) fn is_own(&self, id: StoreId) -> bool
        ensures { result ≡ is_id id self.now.id }
    {
        id.as_raw().get() == self.id.as_raw().get()
    }
}

/// Whether a range is within a length.
pub(crate) fn is_range(length: usize, at: u64, len: u64) -> bool
    ensures { result ≡ nat_le (at + len) length }
{
    let length = length as u64;
    at <= length && len <= length - at
}
