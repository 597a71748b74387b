//! The numbers by which C is told how a call ended.
ghost use Rattle.std.specs.Prelude.{◌≡◌};
ghost use Rattle.c_calls.specs.Codes as codes;

use crate::ends::End;
use binary_call::CallFault;
use wasm_values::{Refusal, Trap};

fn trap_number(trap: Trap) -> u32
    ensures { result ≡ codes.trap_number trap }
{
    match trap {
        Trap::MemoryOutOfBounds => 1,
        Trap::TableOutOfBounds => 2,
        Trap::IndirectCallToNull => 3,
        Trap::BadSignature => 4,
        Trap::IntegerDivisionByZero => 5,
        Trap::IntegerOverflow => 6,
        Trap::UnreachableCodeReached => 7,
        Trap::StackOverflow => 8,
        Trap::OutOfFuel => 9,
        Trap::Interrupt => 10,
    }
}

/// The number of a refusal among refusals; that of a trap among traps.
fn refusal_number(cause: Refusal) -> u32
    ensures { result ≡ codes.refusal_number cause }
{
    match cause {
        Refusal::Trap(trap) => trap_number(trap),
        Refusal::NoReply => 1,
        Refusal::WrongStore => 2,
        Refusal::WrongEngine => 3,
        Refusal::FuelNotConfigured => 4,
        Refusal::FuelInterval => 5,
        Refusal::ImmutableGlobal => 6,
        Refusal::ImportCount => 7,
        Refusal::ImportType(_) => 8,
        Refusal::ArgumentCount => 9,
        Refusal::ResultCount => 10,
        Refusal::TypeMismatch => 11,
        Refusal::ResourceLimit(_) => 12,
        Refusal::MemoryAccessError => 13,
        Refusal::GrowFailed => 14,
        Refusal::LimiterFault => 15,
        Refusal::HookFault => 16,
        Refusal::EpochFault => 17,
        Refusal::NoHostBody => 18,
        Refusal::HostFault => 19,
        Refusal::HostResultType => 20,
        Refusal::TurnLimit => 21,
        Refusal::NoExport => 22,
        Refusal::OutOfMemory => 23,
    }
}

fn refusal_code(cause: Refusal) -> u32
    ensures { result ≡ codes.refusal_code cause }
{
    match cause {
        Refusal::Trap(_) => 14,
        _ => 15,
    }
}

fn fault_code(fault: CallFault) -> u32
    ensures { result ≡ codes.fault_code fault }
{
    match fault {
        CallFault::BadBounds => 2,
        CallFault::TooLong => 4,
        CallFault::BadModule(_) => 5,
        CallFault::NoFunction => 6,
        CallFault::InvalidModule { .. } => 7,
        CallFault::OutOfMemory => 8,
        CallFault::BadArguments => 10,
        CallFault::TakesNoBytes(_) => 13,
    }
}

impl End {
    /// The code of an end: 0 for `Values`, else one of 2 to 16, which is that of a run where the cause is the same. It is
    /// never 11.
    pub fn code(self) -> u32
        ensures { result ≡ codes.code self }
    {
        match self {
            End::Values => 0,
            End::NoRoom => 9,
            End::BadValue => 16,
            End::Refused(cause) => refusal_code(cause),
            End::Fault(fault) => fault_code(fault),
        }
    }

    /// Which trap, from 1 to 10, or which refusal, from 1 to 23, and 0 where it is neither.
    pub fn cause(self) -> u32
        ensures { result ≡ codes.cause self }
    {
        match self {
            End::Refused(cause) => refusal_number(cause),
            _ => 0,
        }
    }
}
