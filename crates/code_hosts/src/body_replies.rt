//! A body of the host goes on behind the reply to its operation.
ghost use Rattle.std.specs.Prelude.{IfOk, IfErr};
ghost use Rattle.wasm_host.specs.Activations.{activation_of};
ghost use Rattle.code_hosts.specs.Parting.{TakesReply, LacksAtOnce};

use crate::rounds::{Lack, Lacking, Round, Rounded};
use crate::states::Open;
use spec_machine::Reply;
use wasm_host::{Activation, Event};

// A body goes on behind this reply.
pub(crate) fn take_reply<'p>(
    activation: Activation<'p>,
    reply: Reply,
) -> Result<Rounded<'p>, Lacking>
    ensures takes { IfOk result (λ x. TakesReply (activation_of activation.entry) reply x) }
    ensures lacks { IfErr result (λ x. LacksAtOnce x) }
{
    let mut activation = activation;
    match activation.reply(reply) {
        Ok(()) => Ok(Rounded {
            round: Round::Goes(Open::Body(activation, Event::Replied)),
            spent: 0,
        }),
        Err(_) => Err(Lacking {
            lack: Lack::Run,
            spent: 0,
        }),
    }
}
