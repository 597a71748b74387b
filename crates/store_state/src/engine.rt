ghost use Rattle.std.specs.Prelude.{ℕ, ◌≤◌};

use wasm_types::EngineId;

/// The most frames of nested calls.
const MOST_FRAMES: u32 = 1024;

/// The most turns of a command.
const MOST_TURNS: u64 = 1_000_000_000;

/// What stores are made for: its number, whether it consumes fuel and reads epochs, and how many frames and turns a
/// command may have. Its ranges are this project's own.
#[derive(Clone, Copy)]
pub struct Engine {
    id: EngineId,
    consume_fuel: bool,
    epoch_interruption: bool,
    frames: u32,
    turns: u64,
    ghost some_frames: { 1 ≤ frames },
    ghost most_frames: { frames ≤ 1024 },
    ghost some_turns: { 1 ≤ turns },
    ghost most_turns: { turns ≤ 1000000000 },
}

impl Engine {
    ghost use Rattle.std.specs.Prelude.{◌≡◌, ◌≤◌, ◌↔◌, true, IsSome, IfSome};
    ghost use Rattle.spec_machine.specs.Machine.{are_engine_limits};
    ghost use Rattle.store_state.specs.Engines.{engine_parts, parts};

    /// The engine of these parts: `frames` is 1 to 1,024, and `turns` is 1 to 1,000,000,000.
    ///
    /// `None` exactly where one of the two is out of range.
    pub fn new(
        id: EngineId,
        consume_fuel: bool,
        epoch_interruption: bool,
        frames: u32,
        turns: u64,
    ) -> Option<Engine>
        ensures accepted { IsSome result ↔ (are_engine_limits frames turns ≡ true) }
        ensures given { IfSome result (λ engine. engine_parts engine
            ≡ parts id.0 consume_fuel epoch_interruption frames turns) }
    {
        if frames < 1 || frames > MOST_FRAMES || turns < 1 || turns > MOST_TURNS {
            return None;
        }
        Some(Engine {
            id,
            consume_fuel,
            epoch_interruption,
            frames,
            turns,
        })
    }

    /// The number of the engine.
    pub fn id(&self) -> EngineId
        ensures { result.0 ≡ (engine_parts self.now).number }
    {
        self.id
    }

    /// Whether each instruction takes fuel.
    pub fn consume_fuel(&self) -> bool
        ensures { result ≡ (engine_parts self.now).consumes_fuel }
    {
        self.consume_fuel
    }

    /// Whether a deadline is tested against epochs.
    pub fn epoch_interruption(&self) -> bool
        ensures { result ≡ (engine_parts self.now).reads_epochs }
    {
        self.epoch_interruption
    }

    /// How many frames of nested calls there may be, from 1 to 1,024.
    pub fn frames(&self) -> u32
        ensures value { result ≡ (engine_parts self.now).frames }
        ensures least { 1 ≤ result }
        ensures most { result ≤ 1024 }
    {
        self.frames
    }

    /// How many turns a command may take, from 1 to 1,000,000,000.
    pub fn turns(&self) -> u64
        ensures value { result ≡ (engine_parts self.now).turns }
        ensures least { 1 ≤ result }
        ensures most { result ≤ 1000000000 }
    {
        self.turns
    }

    /// Each engine keeps the ranges that `new` tests.
    pub fn keeps_limits(&self)
        ensures { let engine = engine_parts self.now in are_engine_limits engine.frames engine.turns ≡ true }
    {
        let _frames = self.frames;
    }
}
