// Prints the table of binomial coefficients, one number a line, row by row.
#![tactic(auto)]

use std::io;
use std::io::Print;

fn main(rt: HostRuntime) -> io::Result<()> {
    for entry in pascal::binomials() {
        rt.println(entry)?;
    }
    Ok(())
}
