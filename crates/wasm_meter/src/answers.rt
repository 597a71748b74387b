ghost use Rattle.std.specs.Prelude.{◌≡◌};

use std::marker::Model;

/// Answers that are given one after another, the first one first.
#[derive(Drop)]
pub struct Answers<A> {
    items: Vec<A>,
    given: usize,
}

impl<A> Model for Answers<A> {
    ghost use Rattle.std.specs.Prelude.{List, drop, length, ◌≤◌};

    ghost Value = { List A };

    ghost view = { λ a. drop a.given a.items.items };

    ghost invariant = { λ a. a.given ≤ length a.items.items };
}

impl<A: Copy> Answers<A> {
    ghost use Rattle.std.specs.Prelude.{drop, slice_get};

    /// These answers.
    pub fn new(items: Vec<A>) -> Answers<A>
        ensures { result ≡ items.items }
    {
        Answers { items, given: 0 }
    }

    /// The next answer; `None` past the last one.
    pub fn take(&mut self) -> Option<A>
        ensures first { result ≡ slice_get self.old 0 }
        ensures rest { self.new ≡ drop 1 self.old }
    {
        let answer = *self.items.get(self.given)?;
        self.given += 1;
        Some(answer)
    }
}
