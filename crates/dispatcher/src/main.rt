// Runs roster.bin under the events of standard input: the whole case.
#![tactic(auto)]

use std::io;

// Four programs of one code: each is run once, on the files and the stdin of its own crate.
fn main(rt: HostRuntime) -> io::Result<()> {
    program::run_files(&rt)
}
