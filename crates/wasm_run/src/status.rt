ghost use Rattle.std.specs.Prelude.{◌≡◌};
ghost use Rattle.wasm_run.specs.StatusNames as names;

use std::fmt;
use wasm_syntax::{Part, Place, Rule};

/// How a session ended. It prints as its name; an invalid module with its number, the rule, the part and the item.
#[derive(Clone, Copy, PartialEq, Eq)]
pub enum Status {
    /// All of the text was written, and the sink was flushed after it.
    Done,
    /// The words are neither `run` nor `gen` and a number from 1 to 1,000.
    BadWords,
    /// The source failed.
    ReadFault,
    /// The input has more than 2^24 bytes.
    TooLong,
    /// The input has no reading as JSON, nested at most 127 deep.
    BadJson,
    /// The input is JSON, and no script.
    BadScript,
    /// A module of the script breaks a rule: the first such module, the first rule that it breaks, and where it is
    /// broken first.
    InvalidModule {
        module: usize,
        rule: Rule,
        place: Place,
    },
    /// Memory ran out. What was written is a front of the text, and not all of it where all commands were run.
    OutOfMemory,
    /// The sink failed. What was written is a front of the text.
    WriteFault,
}

/// The name of a rule.
fn rule_name(rule: Rule) -> &'static str
    ensures { result.now ≡ names.rule_name rule }
{
    match rule {
        Rule::Size => "Size",
        Rule::Engine => "Engine",
        Rule::Index => "Index",
        Rule::Local => "Local",
        Rule::Shape => "Shape",
        Rule::Const => "Const",
        Rule::Element => "Element",
        Rule::ExportName => "ExportName",
        Rule::Start => "Start",
        Rule::Body => "Body",
    }
}

/// The name of a part: its key in a script.
fn part_name(part: Part) -> &'static str
    ensures { result.now ≡ names.part_name part }
{
    match part {
        Part::Types => "types",
        Part::Imports => "imports",
        Part::Functions => "functions",
        Part::Tables => "tables",
        Part::Memories => "memories",
        Part::Globals => "globals",
        Part::Tags => "tags",
        Part::Exports => "exports",
        Part::Elements => "elements",
        Part::Datas => "datas",
        Part::Start => "start",
    }
}

impl Status {
    /// The exit status of the program: 0 for `Done`, else 2 to 9.
    pub fn exit_code(self) -> u8
        ensures { result ≡ names.exit_code self }
    {
        match self {
            Status::Done => 0,
            Status::BadWords => 2,
            Status::ReadFault => 3,
            Status::TooLong => 4,
            Status::BadJson => 5,
            Status::BadScript => 6,
            Status::InvalidModule { .. } => 7,
            Status::OutOfMemory => 8,
            Status::WriteFault => 9,
        }
    }
}

/// Its text, as `Display` has it.
impl fmt::Debug for Status {
    ghost use Rattle.std.specs.Prelude.{Some};

    ghost debug_output = { λ status. Some (names.status_text status) };

    fn fmt<W: fmt::Write>(&self, f: &mut fmt::Formatter<W>) -> fmt::Result {
        fmt::Display::fmt(self, f)
    }
}

impl fmt::Display for Status {
    ghost use Rattle.std.specs.Prelude.{Some};

    ghost output = { λ status. Some (names.status_text status) };

    fn fmt<W: fmt::Write>(&self, f: &mut fmt::Formatter<W>) -> fmt::Result {
        match self {
            Status::Done => f.write_str("Done"),
            Status::BadWords => f.write_str("BadWords"),
            Status::ReadFault => f.write_str("ReadFault"),
            Status::TooLong => f.write_str("TooLong"),
            Status::BadJson => f.write_str("BadJson"),
            Status::BadScript => f.write_str("BadScript"),
            Status::InvalidModule {
                module,
                rule,
                place,
            } => {
                let (rule, part, item) = (rule_name(*rule), part_name(place.part), place.item);
                write!(f, "InvalidModule {module} {rule} {part} {item}")
            }
            Status::OutOfMemory => f.write_str("OutOfMemory"),
            Status::WriteFault => f.write_str("WriteFault"),
        }
    }
}
