ghost use Rattle.std.specs.Prelude.{◌≡◌, ◌↔◌, ℕ, None, Some, Err, IfOk, IfErr};
ghost use Rattle.linker_map.specs.Imports.{first_unknown, resolved};

use crate::faults::LinkFault;
use crate::linker_map::LinkerMap;
use wasm_syntax::ImportDecl;
use wasm_types::{Items, OutOfMemory};
use wasm_values::Extern;

/// Objects in order. Contracts see a list.
pub type ExternList = Items<Extern>;

impl LinkerMap {
    /// The place of the first import whose pair is not there. It takes no memory.
    pub fn first_unknown(&self, imports: &[ImportDecl]) -> Option<usize>
        ensures { result ≡ first_unknown self.now imports.now }
    {
        let mut place = 0;
        let mut rest = imports;
        'imports: while let [import, tail @ ..] = rest {
            if self
                .get(import.module.as_str(), import.name.as_str())
                .is_none()
            {
                return Some(place);
            }
            place += 1;
            rest = tail;
        }
        None
    }

    // The objects of imports that are all there.
    fn items(&self, imports: &[ImportDecl]) -> Result<Vec<Extern>, OutOfMemory>
        requires { first_unknown self.now imports.now ≡ None }
        ensures { IfOk result (λ items. resolved self.now imports.now ≡ Some items.items) }
    {
        let mut items = Vec::with_capacity(self.allocator(), imports.len())?;
        let mut rest = imports;
        'imports: while let [import, tail @ ..] = rest {
            let Some(item) = self.get(import.module.as_str(), import.name.as_str()) else {
                unreachable!()
            };
            items.push(item)?;
            rest = tail;
        }
        Ok(items)
    }

    /// What the pair of each import means, in the order of the imports. `UnknownImport` of the first whose pair is not
    /// there, exactly where there is one; and else `OutOfMemory`, where there was none for the list.
    pub fn resolve(&self, imports: &[ImportDecl]) -> Result<ExternList, LinkFault>
        ensures found { IfOk result (λ items. resolved self.now imports.now ≡ Some items) }
        ensures unknown { (i : ℕ) → (result ≡ Err (LinkFault.UnknownImport i)) ↔ (first_unknown self.now imports.now ≡ Some i) }
        ensures short { IfErr result (λ why. first_unknown self.now imports.now ≡ None → why ≡ LinkFault.OutOfMemory) }
    {
        if let Some(place) = self.first_unknown(imports) {
            return Err(LinkFault::UnknownImport(place));
        }
        match self.items(imports) {
            Ok(items) => Ok(Items(items)),
            Err(_) => Err(LinkFault::OutOfMemory),
        }
    }
}
