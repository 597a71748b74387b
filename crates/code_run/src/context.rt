use code_stack::Rules;
use store_state::Program;

/// What stays as it is while code runs: what it reads of its store, and the rules by which it runs.
#[derive(Clone, Copy)]
pub struct CodeContext<'p> {
    pub program: &'p Program,
    pub rules: Rules,
}
