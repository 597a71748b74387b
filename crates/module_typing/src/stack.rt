ghost use Rattle.std.specs.Prelude.{◌≡◌, [], ◌∷◌, MatchOption, OnOk, is_some, reverse};
ghost use Rattle.std.specs.Prelude.{option_copied, slice_get};

use std::alloc::Global;
use std::marker::Model;
use wasm_types::OutOfMemory;

/// A stack, and the greatest number of items that was counted in it. Contracts see the list of its items alone, the
/// topmost first: nothing is proved of the number.
#[derive(Drop)]
pub(crate) struct Stack<T> {
    items: Vec<T>,
    greatest: u32,
}

impl<T> Model for Stack<T> {
    ghost use Rattle.std.specs.Prelude.{List, reverse};

    ghost Value = { List T };

    ghost view = { λ s. reverse s.items.items };
}

impl<T> Stack<T> {
    pub(crate) fn new(alloc: Global) -> Stack<T>
        ensures { result ≡ [] }
    {
        Stack {
            items: Vec::new(alloc),
            greatest: 0,
        }
    }

    pub(crate) fn pop(&mut self) -> Option<T>
        ensures { MatchOption result ((self.old ≡ []) × (self.new ≡ []))
            (λ x. self.old ≡ x ∷ self.new) }
    {
        self.items.pop()
    }

    // Counts the items and so many above them.
    pub(crate) fn count(&mut self, above: u32)
        ensures { self.new ≡ self.old }
    {
        let held = u32::try_from(self.items.len()).unwrap_or(u32::MAX);
        self.greatest = self.greatest.max(held.saturating_add(above));
    }

    // The greatest number of items that was counted, where it is asked for.
    pub(crate) fn greatest_if(&self, asked: bool) -> Option<u32>
        ensures { is_some result ≡ asked }
    {
        if asked { Some(self.greatest) } else { None }
    }

    // The item so deep below the topmost.
    pub(crate) fn at(&self, depth: usize) -> Option<&T>
        ensures { option_copied result ≡ slice_get self.now depth }
    {
        let place = self.items.len().checked_sub(depth)?.checked_sub(1)?;
        self.items.get(place)
    }

    // The items, the topmost last.
    pub(crate) fn as_slice(&self) -> &[T]
        ensures { result.now ≡ reverse self.now }
    {
        self.items.as_slice()
    }
}

impl<T: Drop> Stack<T> {
    pub(crate) fn push(&mut self, item: T) -> Result<(), OutOfMemory>
        ensures { OnOk result (self.new ≡ item ∷ self.old) }
    {
        self.items.push(item)?;
        Ok(())
    }
}
