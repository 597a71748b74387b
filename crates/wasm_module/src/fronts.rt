ghost use Rattle.std.specs.Prelude.{◌≡◌, ◌+◌, ◌≤◌, ◌<◌, List, [], length, replicate, map, set, slice_get, option_and_then, vec_items, Some, IfOk, OnErr};
ghost use Rattle.std.specs.Bool.{OnFalse, then_some};
ghost use Rattle.std.specs.List.{sum_by};
ghost use Rattle.wasm_types.specs.Ranges.{padded, with_range, written};
ghost use Rattle.wasm_module.specs.Images.{image_written, within};

use std::alloc::Global;
use std::marker::Model;
use wasm_types::OutOfMemory;

// The images of tables or of memories: of each the front, up to the last place that was written to. Contracts see them in
// order.
#[derive(Drop)]
pub(crate) struct Fronts<X> {
    fronts: Vec<Vec<X>>,
    // How long they are together.
    total: usize,
}

impl<X> Model for Fronts<X> {
    ghost use Rattle.std.specs.Prelude.{◌≡◌, List, length, map, vec_items};
    ghost use Rattle.std.specs.List.{sum_by};

    ghost Value = { List (List X) };

    ghost view = { λ f. map vec_items f.fronts.items };

    ghost invariant = { λ f. f.total ≡ sum_by length (map vec_items f.fronts.items) };
}

// Fills a front up to a length.
fn fill_up<X: Copy>(front: &mut Vec<X>, length: usize, blank: X) -> Result<(), OutOfMemory>
    ensures filled { IfOk result (λ done. front.new.items ≡ padded length blank front.old.items) }
    ensures unchanged { OnErr result (front.new.items ≡ front.old.items) }
{
    if front.len() >= length {
        return Ok(());
    }
    front.resize(length, blank)?;
    Ok(())
}

// Replaces the items from a place on by a piece, which ends within them.
fn put_piece<X: Copy>(items: &mut Vec<X>, at: usize, piece: &[X])
    requires { at + length piece.now ≤ length items.old.items }
    ensures { items.new.items ≡ with_range at piece.now items.old.items }
{
    items[at..at + piece.len()].copy_from_slice(piece);
}

// Writes a piece to a front, which ends with it where it ended before.
#[tactic(auto, using(crate::proofs::FrontLemmas::something_written))]
fn write_front<X: Copy>(
    front: &mut Vec<X>,
    blank: X,
    at: usize,
    piece: &[X],
) -> Result<(), OutOfMemory>
    requires { at + length piece.now ≤ 281474976710656 }
    ensures written { IfOk result (λ done. front.new.items ≡ written blank at piece.now front.old.items) }
    ensures unchanged { OnErr result (front.new.items ≡ front.old.items) }
{
    if piece.is_empty() {
        return Ok(());
    }
    fill_up(front, at + piece.len(), blank)?;
    put_piece(front, at, piece);
    Ok(())
}

// How long a front is once a piece is written to it.
fn length_behind<X>(front: &[X], at: usize, piece: &[X]) -> usize
    requires { at + length piece.now ≤ 281474976710656 }
    ensures behind { (blank : X) → result ≡ length (written blank at piece.now front.now) }
    ensures small { result ≤ length front.now + 281474976710656 }
{
    if piece.is_empty() {
        return front.len();
    }
    front.len().max(at + piece.len())
}

impl<X: Copy> Fronts<X> {
    // So many, none of which was written to.
    pub(crate) fn new(alloc: Global, count: usize) -> Result<Fronts<X>, OutOfMemory>
        ensures { IfOk result (λ made. made ≡ replicate count []) }
    {
        let mut fronts = Vec::with_capacity(alloc, count)?;
        'fronts: while fronts.len() < count {
            fronts.push_reserved(Vec::new(alloc));
        }
        Ok(Fronts { fronts, total: 0 })
    }

    // How long they are together once a piece is written to the front of this number.
    fn total_behind(&self, number: usize, at: usize, piece: &[X]) -> usize
        requires there { number < length self.now }
        requires ends { at + length piece.now ≤ 281474976710656 }
        requires limited { sum_by length self.now ≤ 4294967296 }
        ensures { (blank : X) (image : List X) → slice_get self.now number ≡ Some image →
            result ≡ sum_by length (set self.now number (written blank at piece.now image)) }
    {
        let front = self.fronts[number].as_slice();
        let behind = length_behind(front, at, piece);
        self.total - front.len() + behind
    }

    // Writes a piece to the front of this number.
    fn put(&mut self, number: usize, blank: X, at: usize, piece: &[X]) -> Result<(), OutOfMemory>
        requires there { number < length self.old }
        requires ends { at + length piece.now ≤ 281474976710656 }
        requires limited { sum_by length self.old ≤ 4294967296 }
        ensures { IfOk result (λ done. (image : List X) → slice_get self.old number ≡ Some image →
            self.new ≡ set self.old number (written blank at piece.now image)) }
    {
        let total = self.total_behind(number, at, piece);
        write_front(&mut self.fronts[number], blank, at, piece)?;
        self.total = total;
        Ok(())
    }

    // Writes a piece within a size to the front of this number; `false` where it ends past that, or where the fronts would
    // be longer than `most` together: then nothing changes.
    pub(crate) fn write(
        &mut self,
        number: usize,
        size: usize,
        blank: X,
        at: usize,
        piece: &[X],
        most: usize,
    ) -> Result<bool, OutOfMemory>
        requires there { number < length self.old }
        requires sizes { size ≤ 281474976710656 }
        requires most { most ≤ 4294967296 }
        requires within { sum_by length self.old ≤ most }
        ensures written { IfOk result (λ led. then_some led self.new ≡
            option_and_then (within most) (image_written blank self.old number size at piece.now)) }
        ensures refused { IfOk result (λ led. OnFalse led (self.new ≡ self.old)) }
    {
        if at > size || piece.len() > size - at {
            return Ok(false);
        }
        if self.total_behind(number, at, piece) > most {
            return Ok(false);
        }
        self.put(number, blank, at, piece)?;
        Ok(true)
    }

    // How long they are together.
    pub(crate) fn total(&self) -> usize
        ensures { result ≡ sum_by length self.now }
    {
        self.total
    }

    // The images.
    pub(crate) fn into_vec(self) -> Vec<Vec<X>>
        ensures { map vec_items result.items ≡ self }
    {
        self.fronts
    }
}
