use std::fmt;
use wasm_binary::BinaryFault;
use wasm_linker::LinkFault;
use wasm_module::{Part, Place, Rule};
use wasm_plugins::{Node, PluginFault};
use wasm_types::{Resource, TypeFault};
use wasm_values::{Refusal, Trap};

/// A cause, to be told in words.
#[derive(Clone, Copy)]
pub(crate) struct Told<E>(pub(crate) E);

fn trap_words(trap: Trap) -> &'static str {
    match trap {
        Trap::MemoryOutOfBounds => "it passed the end of a memory or of a data segment",
        Trap::TableOutOfBounds => "it passed the end of a table or of an element segment",
        Trap::IndirectCallToNull => "it called through a null reference",
        Trap::BadSignature => "it called through a table a function of another type",
        Trap::IntegerDivisionByZero => "it divided an integer by zero",
        Trap::IntegerOverflow => "the quotient of a signed division is out of range",
        Trap::UnreachableCodeReached => "it executed `unreachable`",
        Trap::StackOverflow => "its nested calls passed the engine's limit",
        Trap::OutOfFuel => "its fuel is spent",
        Trap::Interrupt => "the deadline of its epochs has come",
    }
}

fn resource_words(resource: Resource) -> &'static str {
    match resource {
        Resource::Instance => "instances",
        Resource::Memory => "memories",
        Resource::Table => "tables",
    }
}

// The refusals that have no parts.
fn refusal_words(why: Refusal) -> &'static str {
    match why {
        Refusal::NoReply => "a name means nothing of the kind that is needed",
        Refusal::WrongStore => "a handle is not of this store",
        Refusal::WrongEngine => "a module or a type is of another engine",
        Refusal::FuelNotConfigured => "the engine consumes no fuel",
        Refusal::FuelInterval => "the interval of yielding is 0",
        Refusal::ImmutableGlobal => "the global is constant",
        Refusal::ImportCount => "there are not as many objects as imports",
        Refusal::ArgumentCount => "there are not as many arguments as parameters",
        Refusal::ResultCount => "there are not as many places as results",
        Refusal::TypeMismatch => "a value or a type does not match",
        Refusal::MemoryAccessError => "the bytes pass the end of the memory",
        Refusal::GrowFailed => "it may not be so large",
        Refusal::LimiterFault => "the limiter failed",
        Refusal::HookFault => "the call hook failed",
        Refusal::EpochFault => "the source of epochs or the deadline's behaviour failed",
        Refusal::NoHostBody => "the host has no such body",
        Refusal::HostFault => "a body of the host failed",
        Refusal::HostResultType => "a body of the host gave other values than its type has",
        Refusal::TurnLimit => "the call took as many turns as the engine allows",
        Refusal::NoExport => "there is no such export",
        _ => "there is no memory left",
    }
}

impl fmt::Display for Told<Refusal> {
    fn fmt<W: fmt::Write>(&self, f: &mut fmt::Formatter<W>) -> fmt::Result {
        match self.0 {
            Refusal::ImportType(place) => {
                write!(
                    f,
                    "the object for import {place}, counted from 0, does not match"
                )
            }
            Refusal::ResourceLimit(resource) => {
                write!(f, "the store may have no more {}", resource_words(resource))
            }
            Refusal::Trap(trap) => write!(f, "the code trapped: {}", trap_words(trap)),
            why => f.write_str(refusal_words(why)),
        }
    }
}

impl fmt::Display for Told<LinkFault> {
    fn fmt<W: fmt::Write>(&self, f: &mut fmt::Formatter<W>) -> fmt::Result {
        match self.0 {
            LinkFault::AlreadyDefined => f.write_str("the linker has an object under these names"),
            LinkFault::UnknownName => f.write_str("the linker has no object under these names"),
            LinkFault::UnknownImport(place) => {
                write!(
                    f,
                    "the linker has no object for import {place}, counted from 0"
                )
            }
            LinkFault::Refused(why) => write!(f, "{}", Told(why)),
            LinkFault::OutOfMemory => f.write_str("there is no memory left"),
        }
    }
}

impl fmt::Display for Told<Node> {
    fn fmt<W: fmt::Write>(&self, f: &mut fmt::Formatter<W>) -> fmt::Result {
        match self.0 {
            Node::Func(number) => write!(f, "function {number}"),
            Node::Instance(number) => write!(f, "instance {number}"),
            Node::Memory(number) => write!(f, "memory {number}"),
            Node::Table(number) => write!(f, "table {number}"),
            Node::Global(number) => write!(f, "global {number}"),
        }
    }
}

impl fmt::Display for Told<PluginFault> {
    fn fmt<W: fmt::Write>(&self, f: &mut fmt::Formatter<W>) -> fmt::Result {
        match self.0 {
            PluginFault::NoGuest => f.write_str("there is no guest of this number"),
            PluginFault::Meets { guest, node } => {
                write!(
                    f,
                    "the imports lead to what guest {guest} reaches: {}",
                    Told(node)
                )
            }
            PluginFault::Foreign(place) => {
                write!(
                    f,
                    "the guest does not reach the function at argument {place}, counted from 0"
                )
            }
            PluginFault::Refused(why) => write!(f, "{}", Told(why)),
            PluginFault::OutOfMemory => f.write_str("there is no memory left"),
        }
    }
}

fn type_words(fault: TypeFault) -> &'static str {
    match fault {
        TypeFault::WrongEngine => "a function type within the type is of another engine",
        TypeFault::BadSupertype => "the supertype is final, or does not fit",
        TypeFault::TypeDepth => "the type is nested too deep, or is too large",
        TypeFault::BadLimits =>
            "the limits of a memory or a table are out of range or out of order",
        TypeFault::OutOfMemory => "there is no memory left",
    }
}

impl fmt::Display for Told<TypeFault> {
    fn fmt<W: fmt::Write>(&self, f: &mut fmt::Formatter<W>) -> fmt::Result {
        f.write_str(type_words(self.0))
    }
}

impl fmt::Display for Told<BinaryFault> {
    fn fmt<W: fmt::Write>(&self, f: &mut fmt::Formatter<W>) -> fmt::Result {
        match self.0 {
            BinaryFault::Malformed => f.write_str("the bytes are no module in the binary format"),
            BinaryFault::Unsupported { at, code } => {
                write!(f, "the code {code} at byte {at} is not supported")
            }
            BinaryFault::Index { at } => write!(f, "the number at byte {at} names no type"),
            BinaryFault::Alignment { at } => {
                write!(
                    f,
                    "the alignment at byte {at} is greater than the access is wide"
                )
            }
            BinaryFault::Refused { at, fault } => {
                write!(
                    f,
                    "there is no type of the parts at byte {at}: {}",
                    type_words(fault)
                )
            }
            BinaryFault::OutOfMemory => f.write_str("there is no memory left"),
        }
    }
}

impl fmt::Display for Told<Rule> {
    fn fmt<W: fmt::Write>(&self, f: &mut fmt::Formatter<W>) -> fmt::Result {
        f.write_str(match self.0 {
            Rule::Size => "a list is too long",
            Rule::Engine => "a type is of another engine",
            Rule::Index => "an index is not there",
            Rule::Local => "a local has no default value",
            Rule::Shape => "blocks are no tree, or pass a limit",
            Rule::Const => "a constant expression does not fit",
            Rule::Element => "an element segment does not match its table",
            Rule::ExportName => "two exports have one name",
            Rule::Start => "the start function has parameters or results",
            Rule::Body => "code is not well typed",
        })
    }
}

impl fmt::Display for Told<Place> {
    fn fmt<W: fmt::Write>(&self, f: &mut fmt::Formatter<W>) -> fmt::Result {
        let part = match self.0.part {
            Part::Types => "type",
            Part::Imports => "import",
            Part::Functions => "function",
            Part::Tables => "table",
            Part::Memories => "memory",
            Part::Globals => "global",
            Part::Tags => "tag",
            Part::Exports => "export",
            Part::Elements => "element segment",
            Part::Datas => "data segment",
            Part::Start => "start function",
        };
        write!(f, "{part} {}, counted from 0", self.0.item)
    }
}
