//! What the images of a module stand for. The function does nothing: its contract is the law, and a caller that names it
//! has the law in its proof.
ghost use Rattle.law_images.specs.Leading.{LawOfImages};

/// The turn that makes an instance comes to the same, by the same store, where the tables and memories of the instance
/// begin with the images of its module and only the segments that do not lead are taken: whatever the store, the module
/// and the imports, as long as so many tables and memories are given as the module imports.
pub fn law_images()
    ensures made { LawOfImages }
{}
