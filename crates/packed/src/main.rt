// The program with the word `pack`: the file of the list S. Its output is compared.
#![tactic(auto)]

use std::io;

fn main(rt: HostRuntime) -> io::Result<()> {
    console::run(&rt)
}
