ghost use Rattle.std.specs.Prelude.{◌≡◌};
ghost use Rattle.wasm_replay.specs.Played.{same_event, is_asked, end_of};

use crate::played::Played;
use spec_execution::Event;

/// A step that is asked for: the body's number, its state, and why it is stepped.
#[derive(Clone, Copy, Debug, PartialEq, Eq)]
pub struct Asked {
    pub body: usize,
    pub state: u64,
    pub event: Event,
}

/// What a record holds of each kind.
#[derive(Clone, Copy, Debug, PartialEq, Eq)]
pub enum Kind {
    Steps,
    Readings,
    Growths,
}

/// The first step that a replay asked for otherwise than it was recorded.
#[derive(Clone, Copy)]
pub struct Difference {
    pub at: usize,
    pub recorded: Asked,
    pub asked: Asked,
}

/// How a replay ended.
#[derive(Clone, Copy, Debug, PartialEq, Eq)]
pub enum ReplayEnd {
    /// All was asked as it was recorded, and all of the record was used.
    Same,
    /// The step at this place was the first that was asked otherwise.
    Differs {
        at: usize,
        recorded: Asked,
        asked: Asked,
    },
    /// More was asked of this kind than was recorded.
    Ended(Kind),
    /// Less was asked of this kind than was recorded.
    Left(Kind),
}

/// How much a record holds of each kind.
#[derive(Clone, Copy)]
pub(crate) struct Lengths {
    pub(crate) steps: usize,
    pub(crate) readings: usize,
    pub(crate) growths: usize,
}

fn is_event(one: Event, other: Event) -> bool
    ensures { result ≡ same_event one other }
{
    match (one, other) {
        (Event::Start, Event::Start) => true,
        (Event::Replied, Event::Replied) => true,
        _ => false,
    }
}

impl Asked {
    /// Whether both are the same step.
    pub(crate) fn is(&self, other: &Asked) -> bool
        ensures { result ≡ is_asked self.now other.now }
    {
        self.body == other.body && self.state == other.state && is_event(self.event, other.event)
    }
}

/// How a replay ended, by the first step that differs, and by what was played of each kind.
pub(crate) fn end_of(
    differs: Option<Difference>,
    steps: Played,
    readings: Played,
    growths: Played,
    lengths: Lengths,
) -> ReplayEnd
    ensures { result ≡ end_of differs steps readings growths lengths }
{
    if let Some(difference) = differs {
        return ReplayEnd::Differs {
            at: difference.at,
            recorded: difference.recorded,
            asked: difference.asked,
        };
    }
    if steps.ended {
        return ReplayEnd::Ended(Kind::Steps);
    }
    if readings.ended {
        return ReplayEnd::Ended(Kind::Readings);
    }
    if growths.ended {
        return ReplayEnd::Ended(Kind::Growths);
    }
    if steps.next < lengths.steps {
        return ReplayEnd::Left(Kind::Steps);
    }
    if readings.next < lengths.readings {
        return ReplayEnd::Left(Kind::Readings);
    }
    if growths.next < lengths.growths {
        return ReplayEnd::Left(Kind::Growths);
    }
    ReplayEnd::Same
}
