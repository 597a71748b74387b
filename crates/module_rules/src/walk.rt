ghost use Rattle.std.specs.Prelude.{◌≡◌, ◌≤◌, ℕ, Bool, length, take};
ghost use Rattle.wasm_syntax.specs.FirstBroken.{first_in, first_there};
ghost use Rattle.wasm_syntax.specs.Rules.{is_past};
ghost use Rattle.module_rules.specs.Parts.{is_long_or};

use wasm_syntax::{Part, Place};

// A list of a declaration has at most so many items.
const MOST_ITEMS: usize = 1_000_000;

// What a rule says of an item of one part.
pub(crate) trait Test<T> {
    ghost breaks: { Self → ℕ → T → Bool };

    // Whether the item of this number breaks the rule.
    fn breaks(&self, number: u32, item: &T) -> bool
        ensures { result ≡ breaks self.now number item.now };
}

// The first item of a part that breaks a rule.
pub(crate) fn first_in<T, C: Test<T>>(part: Part, items: &[T], test: &C) -> Option<Place>
    requires { length items.now ≤ 1000000 }
    ensures { result ≡ first_in part (C.breaks test.now) items.now }
{
    let mut number = 0;
    let mut rest = items;
    while let [item, tail @ ..] = rest {
        if test.breaks(number, item) {
            return Some(Place { part, item: number });
        }
        number += 1;
        rest = tail;
    }
    None
}

// The first place of those that are there.
pub(crate) fn first_there(places: &[Option<Place>]) -> Option<Place>
    ensures { result ≡ first_there places.now }
{
    let mut rest = places;
    while let [place, tail @ ..] = rest {
        if place.is_some() {
            return *place;
        }
        rest = tail;
    }
    None
}

// The items of a list that are not past its length.
fn front<T>(items: &[T]) -> &[T]
    ensures items { result.now ≡ take 1000000 items.now }
    ensures short { length result.now ≤ 1000000 }
{
    if items.len() > MOST_ITEMS {
        &items[..MOST_ITEMS]
    } else {
        items
    }
}

// The first item past the length of a list.
#[tactic(auto, using(crate::proofs::FirstItemLemmas::past_in, crate::proofs::FirstItemLemmas::not_past_in))]
pub(crate) fn first_past<T>(part: Part, items: &[T]) -> Option<Place>
    ensures { result ≡ first_in part is_past items.now }
{
    if items.len() > MOST_ITEMS {
        Some(Place {
            part,
            item: 1_000_000,
        })
    } else {
        None
    }
}

// The first item of a part that breaks a rule, or is past the length of a list.
#[tactic(auto, using(crate::proofs::FirstItemLemmas::long_in))]
pub(crate) fn first_in_long<T, C: Test<T>>(part: Part, items: &[T], test: &C) -> Option<Place>
    ensures { result ≡ first_in part (is_long_or (C.breaks test.now)) items.now }
{
    first_in(part, front(items), test).or(first_past(part, items))
}
