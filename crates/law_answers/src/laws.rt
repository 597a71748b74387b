//! What a host can rely on that keeps its answers, to give them again. The function does nothing: its contract is the law,
//! and a caller that names it has the law in its proof.
ghost use Rattle.law_answers.specs.Fronts.{LawOfFronts};

/// Two runs from one store whose answers begin alike come to the same with the same of the common answers left; or they take
/// all common answers, hear the same questions with them, and ask the same question next: of each call from outside of all
/// code, each instantiation and each command, whatever the store, the code, the turns and the answers.
pub fn law_fronts()
    ensures fronts { LawOfFronts }
{}
