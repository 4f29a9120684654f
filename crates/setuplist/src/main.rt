// Lists the permitted setups of a table of at most 4,096 bytes, read from standard input: the header line, then each
// rank with its setup as n binary digits, at most 256 of them.
#![tactic(auto)]

use checking::Shape;
use diagram::Rank;
use std::io;
use std::io::Print;

// The line of rank r: its setup's digits, or `-` if there are none. A sheet of 512 places serves every table of 4,096 bytes.
fn list_rank(rt: &impl Print, table: &[u8], n: usize, r: u64) -> io::Result<()> {
    let mut sheet = [0; 4096];
    match ranking::unrank(table, Rank(r), &mut sheet) {
        Ok(_) if n == 0 => println!(rt; "{r} -"),
        Ok(setup) => println!(rt; "{r} {:0n$b}", setup.0),
        Err(refusal) => println!(rt; "{refusal}"),
    }
}

// The first 256 of c setups, then `more` if some are left.
fn list_ranks(rt: &impl Print, table: &[u8], n: usize, c: u64) -> io::Result<()> {
    for r in 0..c.min(256) {
        list_rank(rt, table, n, r)?;
    }
    if 256 < c {
        println!(rt; "more")?;
    }
    Ok(())
}

// The listing of an accepted table.
fn list_accepted(rt: &impl Print, table: &[u8], shape: Shape) -> io::Result<()> {
    let Shape { settings, nodes } = shape;
    let mut sheet = [0; 4096];
    match checking::count(table, &mut sheet) {
        Ok(c) => {
            println!(rt; "vars {settings} nodes {nodes} count {c}")?;
            list_ranks(rt, table, settings as usize, c)
        }
        Err(refusal) => println!(rt; "{refusal}"),
    }
}

// The listing of a table.
fn list(rt: &impl Print, table: &[u8]) -> io::Result<()> {
    let mut sheet = [0; 4096];
    match checking::check(table, &mut sheet) {
        Ok(shape) => list_accepted(rt, table, shape),
        Err(refusal) => println!(rt; "{refusal}"),
    }
}

fn main(rt: HostRuntime) -> io::Result<()> {
    let mut memory = [0; 4097];
    if let Some(length) = programs::read_table(&rt, &mut memory)? {
        list(&rt, &memory[..length])?;
    }
    Ok(())
}
