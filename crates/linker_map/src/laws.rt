//! What follows from the definitions that the contracts cite. A function here does nothing: its contract is the law,
//! and a caller that names it has the law in its proof.
ghost use Rattle.linker_map.specs.Laws.{MeansWhatWasGiven, OthersMeanTheSame};

/// A linker is a finite map: a pair of names means the object that it was given last, and every other pair what it meant
/// before.
pub fn law_linkers_are_maps()
    ensures given { MeansWhatWasGiven }
    ensures others { OthersMeanTheSame }
{}
