// Runs a box script: reads it from standard input, in pieces, and writes a line for a line (docs/MACHINE.md, 11). What ended
// it is one line more, on standard error.
#![tactic(auto)]

use batch::print::print_end;
use batch::{Batch, MEMORY_WORDS};

fn main(rt: HostRuntime) {
    let mut batch = Batch::new();
    let mut memory = [0; MEMORY_WORDS];
    let ran = reading::run(&mut rt.stdin(), &mut rt.stdout(), &mut batch, &mut memory);
    let mut errors = rt.stderr();
    match ran {
        Ok(()) => print_end(&mut errors, "runbox", "ended"),
        Err(end) => print_end(&mut errors, "runbox", end),
    }
}
