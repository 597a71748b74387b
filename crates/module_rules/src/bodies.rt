ghost use Rattle.std.specs.Prelude.{◌≡◌, IfOk, IfErr, None, Some, length};
ghost use Rattle.wasm_syntax.specs.FirstBroken.{broken};
ghost use Rattle.wasm_syntax.specs.declared.module_fault.Rule.TheVariants as rule;

use module_typing::{Spaces, body_is_typed};
use std::alloc::Global;
use wasm_syntax::{Part, Place};
use wasm_types::OutOfMemory;

/// For each defined function, in order, the greatest number of its operands at one moment, as `body_is_typed` gives it;
/// or the first function with code that is not well typed.
///
/// Nothing is proved of the numbers but that there is one for each function. The caller has seen that `size` gives none,
/// so that the number of each item has 32 bits. `OutOfMemory` where the allocator had no memory left, and for no other
/// cause.
#[tactic(auto, using(crate::proofs::SizeLemmas::few))]
pub fn body(alloc: Global, spaces: &Spaces<'_>) -> Result<Result<Vec<u32>, Place>, OutOfMemory>
    requires { broken rule.Size spaces.now.decl.now ≡ None }
    ensures typed { IfOk result (λ answer. IfOk answer (λ heights.
        broken rule.Body spaces.now.decl.now ≡ None)) }
    ensures heights { IfOk result (λ answer. IfOk answer (λ heights.
        length heights.items ≡ length spaces.now.decl.now.functions)) }
    ensures place { IfOk result (λ answer. IfErr answer (λ place.
        broken rule.Body spaces.now.decl.now ≡ Some place)) }
{
    let functions = spaces.decl.functions.as_slice();
    let mut heights = Vec::with_capacity(alloc, functions.len())?;
    let mut number = 0;
    let mut rest = functions;
    while let Some((function, tail)) = rest.split_first() {
        let Some(height) = body_is_typed(alloc, spaces, function)? else {
            return Ok(Err(Place {
                part: Part::Functions,
                item: number,
            }));
        };
        heights.push(height)?;
        number += 1;
        rest = tail;
    }
    Ok(Ok(heights))
}
