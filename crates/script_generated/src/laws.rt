//! What holds of every generated session.
ghost use Rattle.std.specs.Prelude.{◌≡◌, None};
ghost use Rattle.wasm_syntax.specs.FirstBroken.{first_broken};
ghost use Rattle.script_generated.specs.Modules.{generated_module};

/// The module of generated sessions breaks no rule.
pub fn law_generated_is_valid()
    ensures { first_broken generated_module ≡ None }
{}
