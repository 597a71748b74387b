//! The program: reads a module in WebAssembly's binary format on standard input, and writes one line about it on standard
//! output.
#![tactic(auto)]

use binary_program::{StdSink, StdSource, binary_main};
use std::io::{Input, Lock};
use std::process::ExitCode;

fn main(rt: HostRuntime) -> ExitCode {
    let mut source = StdSource::new(rt.stdin().reader());
    let mut sink = StdSink::new(rt.stdout().lock());
    let status = binary_main(rt.alloc(), &mut source, &mut sink);
    ExitCode::from(status.exit_code())
}
