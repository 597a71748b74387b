ghost use Rattle.std.specs.Prelude.{◌≡◌, ◌+◌, ◌++◌, ℕ, ℤ, List, length, Some};
ghost use Rattle.wasm_leb.specs.Names.{IsName, name};
ghost use Rattle.wasm_leb.specs.Numbers.{IsSigned, IsUnsigned, signed, unsigned};
ghost use Rattle.wasm_leb.specs.Places.{Place, place};

/// Each item of the grammar at the front is read, whatever follows: so no two items stand at one place.
#[tactic(auto, using(crate::proofs::ItemLemmas::unsigned_read, crate::proofs::ItemLemmas::signed_read, crate::proofs::ItemLemmas::name_read))]
pub fn law_items_are_read()
    ensures unsigned { (bits : ℕ) (p : Place) (item rest : List ℕ) (n : ℕ) → p.left ≡ item ++ rest →
        IsUnsigned bits item n → unsigned bits p ≡ Some (n, place (p.at + length item) rest) }
    ensures signed { (bits : ℕ) (p : Place) (item rest : List ℕ) (z : ℤ) → p.left ≡ item ++ rest →
        IsSigned bits item z → signed bits p ≡ Some (z, place (p.at + length item) rest) }
    ensures name { (p : Place) (item rest text : List ℕ) → p.left ≡ item ++ rest →
        IsName item text → name p ≡ Some (text, place (p.at + length item) rest) }
{}
