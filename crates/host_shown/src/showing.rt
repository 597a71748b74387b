ghost use Rattle.std.specs.List.{list_any};
ghost use Rattle.std.specs.Prelude.{◌≡◌};
ghost use Rattle.law_plugins.specs.Showing.{is_same, is_in_val, is_object, is_in_reply, was_shown, is_strange, is_strange_operand, is_strange_in, is_strange_answer};
ghost use Rattle.host_shown.specs.Sights.{sight_in};

use spec_machine::{Op, Operand, Reply};
use wasm_host::Answer;
use wasm_values::{Extern, Func, Val};

/// What a step was shown, lent.
#[derive(Clone, Copy)]
pub(crate) struct Showing<'a> {
    pub(crate) arguments: &'a [Val],
    pub(crate) stored: &'a [Extern],
    pub(crate) replies: &'a [Reply],
}

fn is_same(func: Func, other: Func) -> bool
    ensures { result ≡ is_same func other }
{
    func.store_id().as_raw().get() == other.store_id().as_raw().get()
        && func.index() == other.index()
}

// Whether this is the function in a value.
fn is_in_val(func: Func, val: Val) -> bool
    ensures { result ≡ is_in_val func val }
{
    match val {
        Val::FuncRef(Some(other)) => is_same(func, other),
        _ => false,
    }
}

fn is_among_vals(func: Func, vals: &[Val]) -> bool
    ensures { result ≡ list_any (is_in_val func) vals.now }
{
    for val in vals {
        if is_in_val(func, *val) {
            return true;
        }
    }
    false
}

fn is_object(func: Func, object: Extern) -> bool
    ensures { result ≡ is_object func object }
{
    match object {
        Extern::Func(other) => is_same(func, other),
        _ => false,
    }
}

fn is_among_objects(func: Func, objects: &[Extern]) -> bool
    ensures { result ≡ list_any (is_object func) objects.now }
{
    for object in objects {
        if is_object(func, *object) {
            return true;
        }
    }
    false
}

fn is_in_reply(func: Func, reply: &Reply) -> bool
    ensures { result ≡ is_in_reply func reply.now }
{
    match reply {
        Reply::Object(object) => is_object(func, *object),
        Reply::Values(vals) => is_among_vals(func, vals.as_slice()),
        _ => false,
    }
}

fn is_among_replies(func: Func, replies: &[Reply]) -> bool
    ensures { result ≡ list_any (is_in_reply func) replies.now }
{
    for reply in replies {
        if is_in_reply(func, reply) {
            return true;
        }
    }
    false
}

impl Showing<'_> {
    fn has(self, func: Func) -> bool
        ensures { result ≡ was_shown (sight_in self.entry) func }
    {
        is_among_vals(func, self.arguments)
            || is_among_objects(func, self.stored)
            || is_among_replies(func, self.replies)
    }

    // Whether a function is in a value that is none of those that were shown.
    fn is_strange(self, val: Val) -> bool
        ensures { result ≡ is_strange (sight_in self.entry) val }
    {
        match val {
            Val::FuncRef(Some(func)) => !self.has(func),
            _ => false,
        }
    }

    fn is_any_strange(self, vals: &[Val]) -> bool
        ensures { result ≡ list_any (is_strange (sight_in self.entry)) vals.now }
    {
        for val in vals {
            if self.is_strange(*val) {
                return true;
            }
        }
        false
    }

    fn is_strange_operand(self, operand: Operand) -> bool
        ensures { result ≡ is_strange_operand (sight_in self.entry) operand }
    {
        match operand {
            Operand::Val(val) => self.is_strange(val),
            Operand::Named(_) => false,
        }
    }

    fn is_any_strange_operand(self, operands: &[Operand]) -> bool
        ensures { result ≡ list_any (is_strange_operand (sight_in self.entry)) operands.now }
    {
        for operand in operands {
            if self.is_strange_operand(*operand) {
                return true;
            }
        }
        false
    }

    fn is_strange_in(self, op: &Op) -> bool
        ensures { result ≡ is_strange_in (sight_in self.entry) op.now }
    {
        match op {
            Op::TableNew { ty: _, init } => self.is_strange_operand(*init),
            Op::TableSet {
                table: _,
                at: _,
                value,
            } => self.is_strange_operand(*value),
            Op::TableGrow {
                table: _,
                delta: _,
                value,
            } => self.is_strange_operand(*value),
            Op::TableFill {
                table: _,
                at: _,
                value,
                len: _,
            } => self.is_strange_operand(*value),
            Op::GlobalNew { ty: _, init } => self.is_strange_operand(*init),
            Op::GlobalSet { global: _, value } => self.is_strange_operand(*value),
            Op::Call {
                func: _,
                args,
                results: _,
            } => self.is_any_strange_operand(args.as_slice()),
            _ => false,
        }
    }

    /// Whether an answer hands out a function that was not shown: among the values that it returns, or in a literal
    /// operand of what it asks for.
    pub(crate) fn is_strange_answer(self, answer: &Answer) -> bool
        ensures { result ≡ is_strange_answer (sight_in self.entry) answer.now }
    {
        match answer {
            Answer::Return(vals) => self.is_any_strange(vals.as_slice()),
            Answer::Fail => false,
            Answer::Call(op) => self.is_strange_in(op),
        }
    }
}
