ghost use Rattle.std.specs.Prelude.{◌≡◌, ◌≤◌, IfOk};
ghost use Rattle.script_generated.specs.Commands.{call_of, export_of, generated_commands};

use spec_machine::{Command, Name, NameList, Op, Operand, OperandList, TextName};
use std::alloc::Global;
use wasm_types::OutOfMemory;
use wasm_values::Val;

/// Calls the exported function on a number.
fn call(alloc: Global, k: u32) -> Result<Command, OutOfMemory>
    requires { k ≤ 1000 }
    ensures { IfOk result (λ made. made ≡ call_of k) }
{
    Ok(Command::Op(Op::Call {
        func: Name::Reply(1),
        args: OperandList(vec![in alloc; Operand::Val(Val::I32(k as i32))]?),
        results: None,
    }))
}

/// Looks up what the instance exports under a name.
fn export(alloc: Global, name: &str) -> Result<Command, OutOfMemory>
    ensures { IfOk result (λ made. made ≡ export_of name.now) }
{
    Ok(Command::Op(Op::GetExport {
        instance: Name::Reply(0),
        name: TextName(String::from_str(alloc, name)?),
    }))
}

/// The commands of the generated session of so many calls: an instance, its function, a call for each number from 1 on, its
/// memory, and the bytes of the last sum.
pub(crate) fn generated_commands(alloc: Global, n: u32) -> Result<Vec<Command>, OutOfMemory>
    requires { n ≤ 1000 }
    ensures { IfOk result (λ made. made.items ≡ generated_commands n) }
{
    let mut commands = Vec::new(alloc);
    commands.push(Command::Instantiate {
        module: 0,
        imports: NameList(Vec::new(alloc)),
    })?;
    commands.push(export(alloc, "f")?)?;
    let mut k = 0;
    while k < n {
        k += 1;
        commands.push(call(alloc, k)?)?;
    }
    commands.push(export(alloc, "m")?)?;
    commands.push(Command::Op(Op::MemoryRead {
        memory: Name::Reply(n as usize + 2),
        at: u64::from(n) * 4,
        len: 4,
    }))?;
    Ok(commands)
}
