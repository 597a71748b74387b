ghost use Rattle.std.specs.Prelude.{◌≡◌, filter, length, string_bytes, IfOk};
ghost use Rattle.script_generated.specs.Summaries.{is_refused, summary};

use script_lines::append_line;
use spec_machine::Reply;
use std::alloc::Global;
use wasm_types::OutOfMemory;

/// How many replies are refusals, traps among them.
fn refused(replies: &[Reply]) -> usize
    ensures { result ≡ length (filter is_refused replies.now) }
{
    replies
        .iter()
        .filter(|reply| matches!(**reply, Reply::Refused(_)))
        .count()
}

/// The summary of the generated session of `n` calls: how many calls it has, how many replies and how many refusals there
/// are, and the line of the last reply, where there is one.
pub fn summary_of(alloc: Global, n: u32, replies: &[Reply]) -> Result<String, OutOfMemory>
    ensures { IfOk result (λ text. string_bytes text ≡ summary n replies.now) }
{
    let mut text = format!(in alloc;
        "gen {n}\ncommands {} refused {}\n",
        replies.len(),
        refused(replies),
    )?;
    if let Some(reply) = replies.last() {
        append_line(alloc, &mut text, reply)?;
    }
    Ok(text)
}
