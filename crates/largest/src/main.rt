// The program on the largest list: 1,023 vectors of 64 bits, degree 2, 8,192 cells. Its output is compared.
#![tactic(auto)]

use std::io;

fn main(rt: HostRuntime) -> io::Result<()> {
    console::run(&rt)
}
