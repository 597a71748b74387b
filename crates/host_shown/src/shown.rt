ghost use Rattle.std.specs.Prelude.{◌≡◌};
ghost use Rattle.law_plugins.specs.Showing.{shown_by, Rises};
ghost use Rattle.host_shown.specs.Sights.{sight_in};

use crate::showing::Showing;
use std::alloc::Global;
use wasm_host::{Answer, Caller, Event, HostBody};
use wasm_meter::HostData;
use wasm_types::OutOfMemory;

/// A host that hands out no function but those that its bodies were shown: among the arguments, the objects that were
/// stored with the function, and the replies so far, the values in them too. Each step is one of the host within; where
/// that hands out another function, `Fail` is answered in its place. What the instance exports whose code called counts
/// as shown only once it was asked for.
///
/// It takes no memory of its own. A step takes as long as that of the host within, and for each function that it hands
/// out as long as what was shown.
#[derive(Drop)]
pub struct Shown<H> {
    inner: H,
    faults: u64,
}

impl<H> Shown<H> {
    /// The host around this one.
    pub fn new(inner: H) -> Shown<H>
        ensures inner { result.inner ≡ inner }
        ensures faults { result.faults ≡ 0 }
    {
        Shown { inner, faults: 0 }
    }

    /// The host within, lent.
    pub fn inner(&self) -> &H
        ensures { result.now ≡ self.now.inner }
    {
        &self.inner
    }
}

// An answer, where it hands out nothing strange; else that the step fails.
fn shown_of(showing: Showing<'_>, answer: Answer) -> Answer
    ensures { result ≡ shown_by (sight_in showing.entry) answer }
{
    if showing.is_strange_answer(&answer) {
        return Answer::Fail;
    }
    answer
}

// One fault more, up to the last value of the count.
fn one_more(faults: u64) -> u64
    ensures { Rises faults result }
{
    faults.saturating_add(1)
}

impl<T: HostData, H: HostBody<T>> HostBody<T> for Shown<H> {
    ghost use Rattle.law_plugins.specs.Showing.{ShowsStep};
    ghost use Rattle.law_plugins.specs.StepLaws.{shows_keep, shows_fail};

    ghost ready = { λ s. H.ready s.inner };

    ghost has = { λ s body. H.has s.inner body };

    ghost steps = { λ h s body state cause view after say k t.
        ShowsStep H.steps h.inner h.faults s body state cause view after say k.inner k.faults t };

    ghost host_faults = { λ h. h.faults };

    ghost steps_keep = { λ h k s t body state after cause view say i.
        shows_keep H.steps h.inner k.inner h.faults k.faults s t body state after cause view H.host_faults
        T.denials T.limiter_faults T.hook_faults T.behaviour_faults H.steps_keep say i };

    ghost steps_fail = { λ h k s t body state after cause view i.
        shows_fail H.steps h.inner k.inner h.faults k.faults s t body state after cause view i };

    /// Whether the host within has a body of this number.
    fn has(&self, body: usize) -> bool {
        self.inner.has(body)
    }

    /// A step of the host within.
    fn step(
        &mut self,
        alloc: Global,
        body: usize,
        caller: &mut Caller<'_, T>,
        state: &mut u64,
        event: Event,
    ) -> Result<Answer, OutOfMemory> {
        let answer = self.inner.step(alloc, body, caller, state, event)?;
        let showing = Showing {
            arguments: caller.args(),
            stored: caller.stored(),
            replies: caller.replies(),
        };
        let answer = shown_of(showing, answer);
        if let Answer::Fail = answer {
            self.faults = one_more(self.faults);
        }
        Ok(answer)
    }
}
