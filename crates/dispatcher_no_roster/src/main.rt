// Runs roster.bin under the events of standard input: there is no roster.bin.
#![tactic(auto)]

use std::io;

// The code of dispatcher: a program is run once, with the stdin of its own crate and no roster.bin.
fn main(rt: HostRuntime) -> io::Result<()> {
    program::run_files(&rt)
}
