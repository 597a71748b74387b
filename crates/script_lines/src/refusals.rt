ghost use Rattle.std.specs.Prelude.{◌≡◌, ◌++◌, OnOk, OnErr, string_bytes};
ghost use Rattle.script_lines.specs.Lines.{Begun, refusal_name, refusal_text, resource_name, trap_name};

use crate::pieces::append_pieces;
use itoa::Buffer;
use wasm_types::{OutOfMemory, Resource};
use wasm_values::{Refusal, Trap};

fn trap_name(trap: Trap) -> &'static str
    ensures { result.now ≡ trap_name trap }
{
    match trap {
        Trap::MemoryOutOfBounds => "MemoryOutOfBounds",
        Trap::TableOutOfBounds => "TableOutOfBounds",
        Trap::IndirectCallToNull => "IndirectCallToNull",
        Trap::BadSignature => "BadSignature",
        Trap::IntegerDivisionByZero => "IntegerDivisionByZero",
        Trap::IntegerOverflow => "IntegerOverflow",
        Trap::UnreachableCodeReached => "UnreachableCodeReached",
        Trap::StackOverflow => "StackOverflow",
        Trap::OutOfFuel => "OutOfFuel",
        Trap::Interrupt => "Interrupt",
    }
}

fn resource_name(resource: Resource) -> &'static str
    ensures { result.now ≡ resource_name resource }
{
    match resource {
        Resource::Instance => "instance",
        Resource::Memory => "memory",
        Resource::Table => "table",
    }
}

fn refusal_name(cause: Refusal) -> &'static str
    ensures { result.now ≡ refusal_name cause }
{
    match cause {
        Refusal::NoReply => "NoReply",
        Refusal::WrongStore => "WrongStore",
        Refusal::WrongEngine => "WrongEngine",
        Refusal::FuelNotConfigured => "FuelNotConfigured",
        Refusal::FuelInterval => "FuelInterval",
        Refusal::ImmutableGlobal => "ImmutableGlobal",
        Refusal::ImportCount => "ImportCount",
        Refusal::ImportType(_) => "ImportType",
        Refusal::ArgumentCount => "ArgumentCount",
        Refusal::ResultCount => "ResultCount",
        Refusal::TypeMismatch => "TypeMismatch",
        Refusal::ResourceLimit(_) => "ResourceLimit",
        Refusal::MemoryAccessError => "MemoryAccessError",
        Refusal::GrowFailed => "GrowFailed",
        Refusal::LimiterFault => "LimiterFault",
        Refusal::HookFault => "HookFault",
        Refusal::EpochFault => "EpochFault",
        Refusal::NoHostBody => "NoHostBody",
        Refusal::HostFault => "HostFault",
        Refusal::HostResultType => "HostResultType",
        Refusal::TurnLimit => "TurnLimit",
        Refusal::NoExport => "NoExport",
        Refusal::Trap(trap) => trap_name(trap),
        Refusal::OutOfMemory => "OutOfMemory",
    }
}

/// Appends what is printed of a refusal.
pub(crate) fn append_refusal(text: &mut String, cause: Refusal) -> Result<(), OutOfMemory>
    ensures appended { OnOk result (string_bytes text.new ≡ string_bytes text.old ++ refusal_text cause) }
    ensures short { OnErr result (Begun (refusal_text cause) (string_bytes text.old) (string_bytes text.new)) }
{
    match cause {
        Refusal::Trap(trap) => append_pieces(text, "trap ", trap_name(trap))?,
        Refusal::ImportType(place) => {
            append_pieces(text, "refused ImportType ", Buffer::new().format(place))?
        }
        Refusal::ResourceLimit(kind) => {
            append_pieces(text, "refused ResourceLimit ", resource_name(kind))?
        }
        _ => append_pieces(text, "refused ", refusal_name(cause))?,
    }
    Ok(())
}
