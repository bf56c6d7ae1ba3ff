//! Two sockets that are driven by lines: runs each script of standard input on two new sockets, and prints what the calls answer
//! and what the sockets emit.
//!
//! A script is what stands behind a `#`. Its first line says what the script shows and is printed too. Lines that begin with `make`
//! say what the sockets are made with (`setup`), the others what happens to them (`moves`).
#![tactic(auto)]

mod driven;
mod emitted;
mod exchange;
mod moves;
mod output;
mod payload;
mod questions;
mod setup;
mod side;
mod words;

use output::Output;
use sctp_association::Socket;
use sctp_probe::ByteSum;
use side::converse;
use std::alloc::Global;
use std::io;
use words::Words;

fn run_script(alloc: Global, script: &str, output: &mut Output) {
    let (title, lines) = script.split_once('\n').unwrap_or((script, ""));
    writeln!(output, "#{title}");
    converse::<Socket<Words, ByteSum>>(alloc, lines, output);
}

fn run_scripts(alloc: Global, scripts: &str, output: &mut Output) {
    for script in scripts.split('#') {
        if !script.is_empty() {
            run_script(alloc, script, output);
        }
    }
}

fn main(rt: HostRuntime) -> anyhow::Result<()> {
    let scripts = io::read_to_string(rt.alloc(), rt.reader())?;
    let mut output = Output::new(rt.alloc());
    run_scripts(rt.alloc(), &scripts, &mut output);
    print!(rt; "{}", output.text)?;
    Ok(output.outcome?)
}
