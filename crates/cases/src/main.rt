// Runs the sample units that are not proved as theorems, and each cause of refusals 1 to 13 and 41; the output is compared.
#![tactic(auto)]

mod builds;
mod say;

use std::io;

fn main(rt: HostRuntime) -> io::Result<()> {
    builds::samples(&rt)?;
    builds::list_refusals(&rt)?;
    builds::variable_refusals(&rt)?;
    builds::table_refusals(&rt)?;
    builds::allowances(&rt)
}
