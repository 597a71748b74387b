ghost use Rattle.std.specs.Prelude.{◌≡◌, option_to_list};
ghost use Rattle.wasm_syntax.specs.FirstBroken.{broken, first_in};
ghost use Rattle.wasm_syntax.specs.Rules.{start};
ghost use Rattle.wasm_syntax.specs.declared.module_fault.Part.TheVariants as part;
ghost use Rattle.wasm_syntax.specs.declared.module_fault.Rule.TheVariants as rule;

use module_typing::Spaces;
use wasm_syntax::{Part, Place};

// The start function, if it takes or gives something.
fn unfit_start(spaces: &Spaces) -> Option<Place>
    ensures { let d = spaces.now.decl.now in
        result ≡ first_in part.Start (start d).start (option_to_list d.start) }
{
    let start = spaces.decl.start?;
    let ty = spaces.function_type(start)?;
    if ty.params().is_empty() && ty.results().is_empty() {
        return None;
    }
    Some(Place {
        part: Part::Start,
        item: 0,
    })
}

/// The start function, if its type has a parameter or a result. One that is not there breaks the rule on indices, and not
/// this one.
pub fn start(spaces: &Spaces) -> Option<Place>
    ensures { result ≡ broken rule.Start spaces.now.decl.now }
{
    unfit_start(spaces)
}
