ghost use Rattle.std.specs.Prelude.{◌≡◌, IfOk};
ghost use Rattle.binary_call.specs.Answers.{reply_of, IsTold};

use spec_machine::{Reply, ValList};
use std::alloc::Global;
use wasm_types::{ByteList, OutOfMemory};
use wasm_values::Refusal;

/// What a call that was made came to.
#[derive(Drop)]
pub enum Answer {
    /// It came to its end, with these results.
    Values(ValList),
    /// It was given bytes, came to its end, and answered these.
    Bytes(ByteList),
    /// It ended in a trap, or was refused: the instantiation, or the call.
    Refused(Refusal),
}

/// The answer that a reply is.
pub(crate) fn answer_of(alloc: Global, reply: &Reply) -> Result<Answer, OutOfMemory>
    requires { IsTold reply.now }
    ensures { IfOk result (λ answer. reply_of answer ≡ reply.now) }
{
    match reply {
        Reply::Values(values) => Ok(Answer::Values(ValList(Vec::from_slice(
            alloc,
            values.as_slice(),
        )?))),
        Reply::Bytes(bytes) => Ok(Answer::Bytes(ByteList(Vec::from_slice(
            alloc,
            bytes.as_slice(),
        )?))),
        Reply::Refused(cause) => Ok(Answer::Refused(*cause)),
        _ => unreachable!(),
    }
}
