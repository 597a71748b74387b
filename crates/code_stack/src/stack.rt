ghost use Rattle.std.specs.Prelude.{◌≡◌, ◌+◌, ◌≤◌, ◌<◌, [], ◌∷◌, IfSome, MatchOption, OnOk, OnErr, drop, length};
ghost use Rattle.code_stack.specs.Layers.{IsOutermost, IsInnermost, HasDropped};
ghost use Rattle.code_stack.specs.declared.layers.Layer.TheVariants as layer;

use crate::layers::{Caller, Label, Layer};
use std::alloc::Global;
use std::marker::Model;
use wasm_types::OutOfMemory;

/// A stack. Contracts see the list of its items, the topmost first.
pub struct Stack<T> {
    items: Vec<T>,
}

// Written out, so that the crates above do not prove it again of all that is in it.
impl<T: Drop> Drop for Stack<T> {
    fn drop(self) {
        let Stack { items: _items } = self;
    }
}

impl<T> Model for Stack<T> {
    ghost use Rattle.std.specs.Prelude.{List, reverse};

    ghost Value = { List T };

    ghost view = { λ s. reverse s.items.items };
}

impl<T> Stack<T> {
    /// An empty stack.
    pub fn new(alloc: Global) -> Stack<T>
        ensures { result ≡ [] }
    {
        Stack {
            items: Vec::new(alloc),
        }
    }

    /// How many items there are.
    #[inline]
    pub fn len(&self) -> usize
        ensures { result ≡ length self.now }
    {
        self.items.len()
    }

    /// Takes the topmost item, where there is one.
    #[inline]
    pub fn pop(&mut self) -> Option<T>
        ensures { MatchOption result ((self.old ≡ []) × (self.new ≡ []))
            (λ x. self.old ≡ x ∷ self.new) }
    {
        self.items.pop()
    }
}

impl<T: Drop> Stack<T> {
    /// Drops all items.
    pub fn clear(&mut self)
        ensures { self.new ≡ [] }
    {
        self.items.clear();
    }

    /// Keeps all but the topmost so many items.
    #[inline]
    pub fn shorten(&mut self, count: usize)
        requires { count ≤ length self.old }
        ensures { self.new ≡ drop count self.old }
    {
        let kept = self.items.len() - count;
        self.items.truncate(kept);
    }

    /// Adds an item on top. `OutOfMemory` changes nothing.
    #[inline]
    pub fn push(&mut self, item: T) -> Result<(), OutOfMemory>
        ensures ok { OnOk result (self.new ≡ item ∷ self.old) }
        ensures err { OnErr result (self.new ≡ self.old) }
    {
        self.items.push(item)?;
        Ok(())
    }
}

impl<'p> Stack<Layer<'p>> {
    /// The topmost layer where that is a block of the function at work.
    #[inline]
    pub fn block(&self) -> Option<Label<'p>>
        ensures { IsInnermost result self.now }
    {
        match self.items.last() {
            Some(Layer::Block(label)) => Some(*label),
            _ => None,
        }
    }

    /// The label so many outwards, where it is one of the function at work.
    #[inline]
    pub fn label(&self, outwards: usize) -> Option<Label<'p>>
        ensures dropped { IfSome result (λ p. HasDropped outwards self.now
            (layer.Block p ∷ drop (outwards + 1) self.now)) }
        ensures there { IfSome result (λ p. outwards < length self.now) }
    {
        let length = self.items.len();
        if outwards >= length {
            return None;
        }
        let kept = length - outwards;
        let mut height = kept;
        'walk: while height < length {
            let Layer::Block(_) = self.items[height] else {
                return None;
            };
            height += 1;
        }
        // Read last, so that nothing of it is held over the walk.
        let Layer::Block(label) = self.items[kept - 1] else {
            return None;
        };
        Some(label)
    }

    /// Takes the topmost layer where that is a block of the function at work.
    #[inline]
    pub fn pop_block(&mut self) -> Option<Label<'p>>
        ensures { MatchOption result (IsOutermost self.old × (self.new ≡ self.old))
            (λ p. self.old ≡ layer.Block p ∷ self.new) }
    {
        match self.items.last() {
            Some(Layer::Block(label)) => {
                let label = *label;
                let _layer = self.items.pop();
                Some(label)
            }
            _ => None,
        }
    }

    /// Takes the topmost layer where that is a call.
    #[inline]
    pub fn pop_call(&mut self) -> Option<Caller<'p>>
        ensures { MatchOption result (self.new ≡ self.old) (λ c. self.old ≡ layer.Call c ∷ self.new) }
    {
        match self.items.last() {
            Some(Layer::Call(caller)) => {
                let caller = *caller;
                let _layer = self.items.pop();
                Some(caller)
            }
            _ => None,
        }
    }

    /// Drops the innermost blocks of the function at work, so many at the most, and says how many.
    #[inline]
    pub fn drop_blocks(&mut self, most: usize) -> usize
        ensures dropped { HasDropped result self.old self.new }
        ensures most { result ≤ most }
        ensures all { result < most → IsOutermost self.new }
        ensures length { length self.new + result ≡ length self.old }
    {
        let mut dropped = 0;
        'blocks: while dropped < most {
            let Some(_) = self.pop_block() else {
                return dropped;
            };
            dropped += 1;
        }
        dropped
    }
}
