// Runs the paper's samples, and prints a line for each. A line's name says what is special in its call as well, so name and table stay two
// parameters: a struct of them would be no plainer.
#![tactic(auto)]

use checking::Shape;
use combining::Fault;
use diagram::{Rank, Setup};
use exclusion::Ruling;
use naming::Operation;
use programs::{A, bytes_of};
use std::io;
use std::io::Print;

// A loose form of A, as bytes. The root edge is flagged and leads to record 1, whose then-edge is flagged. Records 1 and 3 have forward edges, 4 is unused, 5 is 2 again, 6 has equal edges.
const LOOSE: [u8; 56] = *b"\
    \x0C\x00\x00\x00\xC0\x00\x00\x03\
    \x0C\x00\x00\x00\xE0\x00\x00\x0D\
    \x04\x00\x00\x00\x00\x00\x00\x01\
    \x08\x00\x00\x01\x40\x00\x00\x05\
    \x08\x00\x00\x00\x80\x00\x00\x01\
    \x04\x00\x00\x00\x00\x00\x00\x01\
    \x08\x00\x00\x00\x00\x00\x00\x00";

// A with its root edge complemented: the setups that A does not permit.
const OTHERS: [u64; 4] = [0x0C00000060000007, A[1], A[2], A[3]];

// The table of no setups of three settings.
const EMPTY: [u64; 1] = [0x0C00000000000001];

// A list's items.
fn say_items(rt: &impl Print, list: &[u8]) -> io::Result<()> {
    for k in 0..list.len() / 8 {
        let item = words::word_at(list, k);
        print!(rt; " {item}")?;
    }
    Ok(())
}

// A row of words, in hexadecimal digits. (A format is a literal, so one function for this and the list would be no plainer.)
fn say_words(rt: &impl Print, bytes: &[u8]) -> io::Result<()> {
    for k in 0..bytes.len() / 8 {
        let word = words::word_at(bytes, k);
        print!(rt; " {word:016x}")?;
    }
    Ok(())
}

// Setup x, if it is permitted.
fn say_permitted(rt: &impl Print, table: &[u8], x: u64) -> io::Result<()> {
    let mut sheet = [0; 32];
    match checking::test(table, Setup(x), &mut sheet) {
        Ok(true) => print!(rt; " {x}"),
        Ok(false) => Ok(()),
        Err(refusal) => print!(rt; " {refusal}"),
    }
}

// The permitted setups, where n is small.
fn say_setups(rt: &impl Print, table: &[u8], n: u64) -> io::Result<()> {
    if 6 < n {
        return Ok(());
    }
    print!(rt; " setups")?;
    for x in 0..1 << n {
        say_permitted(rt, table, x)?;
    }
    Ok(())
}

// C, the places (the sheet has four) and the permitted setups of an accepted table.
fn say_table(rt: &impl Print, table: &[u8], shape: Shape) -> io::Result<()> {
    let Shape { settings, nodes } = shape;
    print!(rt; " vars {settings} nodes {nodes}")?;
    let mut sheet = [0; 32];
    match checking::count(table, &mut sheet) {
        Ok(c) => {
            print!(rt; " count {c} places")?;
            say_items(rt, &sheet[..8 * nodes.min(3) + 8])?;
            say_setups(rt, table, settings)?;
            if c == 0 {
                print!(rt; " none")?;
            }
            Ok(())
        }
        Err(refusal) => print!(rt; " {refusal}"),
    }
}

// A sample's line.
fn sample(rt: &impl Print, name: &str, table: &[u8]) -> io::Result<()> {
    print!(rt; "{name}:")?;
    let mut sheet = [0; 32];
    match checking::check(table, &mut sheet) {
        Ok(shape) => say_table(rt, table, shape)?,
        Err(refusal) => print!(rt; " {refusal}")?,
    }
    println!(rt)
}

fn refused_tables(rt: &impl Print) -> io::Result<()> {
    sample(rt, "seven bytes", &bytes_of::<7>(&A))?;
    sample(
        rt,
        "0C00200000000000",
        &bytes_of::<8>(&[0x0C00200000000000]),
    )?;
    sample(
        rt,
        "A with root 4",
        &bytes_of::<32>(&[0x0C00000060000004, A[1], A[2], A[3]]),
    )?;
    sample(
        rt,
        "A with record 1 as 0000000000000001",
        &bytes_of::<32>(&[A[0], 0x0000000000000001, A[2], A[3]]),
    )?;
    sample(
        rt,
        "A with record 1 as 0400000020000000",
        &bytes_of::<32>(&[A[0], 0x0400000020000000, A[2], A[3]]),
    )?;
    sample(
        rt,
        "A with record 2 as 0400000000000001",
        &bytes_of::<32>(&[A[0], A[1], 0x0400000000000001, A[3]]),
    )?;
    sample(
        rt,
        "A with record 2 as 0800000080000001",
        &bytes_of::<32>(&[A[0], A[1], 0x0800000080000001, A[3]]),
    )?;
    sample(
        rt,
        "A with record 3 as 0C00000080000004",
        &bytes_of::<32>(&[A[0], A[1], A[2], 0x0C00000080000004]),
    )?;
    sample(
        rt,
        "A with record 3 as 0C00000040000000",
        &bytes_of::<32>(&[A[0], A[1], A[2], 0x0C00000040000000]),
    )?;
    sample(
        rt,
        "0800000040000004 0800000000000001 0400000040000001",
        &bytes_of::<24>(&[0x0800000040000004, 0x0800000000000001, 0x0400000040000001]),
    )?;
    Ok(())
}

fn accepted_tables(rt: &impl Print) -> io::Result<()> {
    sample(rt, "A", &bytes_of::<32>(&A))?;
    sample(
        rt,
        "A with header 0C00000060000007",
        &bytes_of::<32>(&OTHERS),
    )?;
    sample(
        rt,
        "FC00000000000000",
        &bytes_of::<8>(&[0xFC00000000000000]),
    )?;
    sample(
        rt,
        "0000000000000000",
        &bytes_of::<8>(&[0x0000000000000000]),
    )?;
    sample(rt, "0C00000000000001", &bytes_of::<8>(&EMPTY))?;
    Ok(())
}

// A setup that is too large: refused, whatever the table permits.
fn setup_too_large(rt: &impl Print) -> io::Result<()> {
    print!(rt; "A, setup 8:")?;
    say_permitted(rt, &bytes_of::<32>(&A), 8)?;
    println!(rt)
}

// A sheet with a byte less than A's four places.
fn sheet_too_short(rt: &impl Print) -> io::Result<()> {
    print!(rt; "A, sheet of 31 bytes: ")?;
    let mut sheet = [0; 31];
    match checking::count(&bytes_of::<32>(&A), &mut sheet) {
        Ok(c) => println!(rt; "{c}"),
        Err(refusal) => println!(rt; "{refusal}"),
    }
}

// How many permitted setups have m settings on, in a table of four words at most, with so many bytes of sheet, 2048 at most.
fn counted_on(rt: &impl Print, name: &str, table: &[u8], m: u64, lent: usize) -> io::Result<()> {
    print!(rt; "{name}, settings on {m}: ")?;
    let mut memory = [0; 2048];
    let sheet = tables::front(&mut memory, lent);
    match weighing::count_on(table, m, &mut sheet[..]) {
        Ok(c) => println!(rt; "{c}"),
        Err(refusal) => println!(rt; "{refusal}"),
    }
}

// The permitted setup closest to another, in a table of four words at most, with so many bytes of sheet, 64 at most.
fn closest_to(rt: &impl Print, name: &str, table: &[u8], x: u64, lent: usize) -> io::Result<()> {
    print!(rt; "{name}, closest to {x}: ")?;
    let mut memory = [0; 64];
    let sheet = tables::front(&mut memory, lent);
    match correcting::closest(table, Setup(x), &mut sheet[..]) {
        Ok(c) => println!(rt; "{}, settings that differ: {}", c.setup.0, c.distance),
        Err(refusal) => println!(rt; "{refusal}"),
    }
}

// The rank of a setup in A.
fn rank_of(rt: &impl Print, x: u64) -> io::Result<()> {
    print!(rt; "A, rank of {x}: ")?;
    let mut sheet = [0; 32];
    match ranking::rank(&bytes_of::<32>(&A), Setup(x), &mut sheet) {
        Ok(rank) => println!(rt; "{}", rank.0),
        Err(refusal) => println!(rt; "{refusal}"),
    }
}

// The setup of a number, in a table of four words at most.
fn setup_of(rt: &impl Print, name: &str, table: &[u8], r: u64) -> io::Result<()> {
    print!(rt; "{name}, number {r}: ")?;
    let mut sheet = [0; 32];
    match ranking::unrank(table, Rank(r), &mut sheet) {
        Ok(setup) => println!(rt; "{}", setup.0),
        Err(refusal) => println!(rt; "{refusal}"),
    }
}

// What is found of a setup, in a table of four words at most.
fn ruled_out(rt: &impl Print, name: &str, table: &[u8], x: u64) -> io::Result<()> {
    print!(rt; "{name}, setup {x}: ")?;
    let mut sheet = [0; 32];
    match exclusion::ruled_out(table, Setup(x), &mut sheet) {
        Ok(Ruling::Permitted) => println!(rt; "permitted"),
        Ok(Ruling::Empty) => println!(rt; "p = 0"),
        Ok(Ruling::By(by)) => println!(rt; "p = {}, setup {}", by.settings, by.given.0),
        Err(refusal) => println!(rt; "{refusal}"),
    }
}

// The setups of a list of numbers, where there is room for them.
fn say_list(
    rt: &impl Print,
    name: &str,
    table: &[u8],
    ranks: &[u8],
    setups: &mut [u8],
) -> io::Result<()> {
    print!(rt; "{name}, numbers")?;
    say_items(rt, ranks)?;
    print!(rt; ":")?;
    let mut sheet = [0; 32];
    match lists::unrank_list(table, ranks, &mut sheet, setups) {
        Ok(_) => say_items(rt, setups)?,
        Err(refusal) => print!(rt; " {refusal}")?,
    }
    println!(rt)
}

// The sizes of the first `shown` parts of k of A.
fn sizes(rt: &impl Print, k: u64, shown: u64) -> io::Result<()> {
    print!(rt; "A, k = {k}, sizes:")?;
    let a = bytes_of::<32>(&A);
    let mut sheet = [0; 32];
    for j in 0..shown {
        match division::span(&a, k, j, &mut sheet) {
            Ok(part) => print!(rt; " {}", part.size)?,
            Err(refusal) => print!(rt; " {refusal}")?,
        }
    }
    println!(rt)
}

// Part j of k of A: written, handed out and shown.
fn part_of(rt: &impl Print, k: u64, j: u64) -> io::Result<()> {
    print!(rt; "A, k = {k}, part {j}:")?;
    let mut sheet = [0; 4120];
    let mut out = [0; 64];
    match parts::part_write(&bytes_of::<32>(&A), k, j, &mut sheet, &mut out) {
        Ok(m) => say_words(rt, tables::front(&mut out, m))?,
        Err(refusal) => print!(rt; " {refusal}")?,
    }
    println!(rt)
}

// What the operation makes of A and another table, of four words at most, with so many bytes of pair sheet, 320 at most.
fn combined(
    rt: &impl Print,
    name: &str,
    op: Operation,
    other: &[u8],
    lent: usize,
) -> io::Result<()> {
    print!(rt; "{name}:")?;
    let a = bytes_of::<32>(&A);
    let mut sheet = [0; 32];
    let mut second = [0; 32];
    let mut memory = [0; 320];
    let mut out = [0; 64];
    let pairs = tables::front(&mut memory, lent);
    let combined = combining::combine(
        op,
        &a,
        &mut sheet,
        other,
        &mut second,
        &mut pairs[..],
        &mut out,
    );
    match combined {
        Ok(m) => say_words(rt, tables::front(&mut out, m))?,
        Err(Fault::First(refusal)) => print!(rt; " {refusal}, table 1")?,
        Err(Fault::Second(refusal)) => print!(rt; " {refusal}, table 2")?,
        Err(Fault::Both(refusal)) => print!(rt; " {refusal}, table 0")?,
    }
    println!(rt)
}

// What a loose table comes to, with so many bytes of sheet, 4480 at most, and of out memory, 32 at most.
fn made_proper(
    rt: &impl Print,
    name: &str,
    table: &[u8],
    lent: usize,
    room: usize,
) -> io::Result<()> {
    print!(rt; "{name} made proper:")?;
    let mut memory = [0; 4480];
    let mut space = [0; 32];
    let sheet = tables::front(&mut memory, lent);
    let out = tables::front(&mut space, room);
    match tightening::make_proper(table, &mut sheet[..], &mut out[..]) {
        Ok(m) => say_words(rt, tables::front(&mut out[..], m))?,
        Err(refusal) => print!(rt; " {refusal}")?,
    }
    println!(rt)
}

fn numbers(rt: &impl Print) -> io::Result<()> {
    for x in [7, 5, 8] {
        rank_of(rt, x)?;
    }
    let a = bytes_of::<32>(&A);
    for r in 4..=6 {
        setup_of(rt, "A", &a, r)?;
    }
    let empty = bytes_of::<8>(&EMPTY);
    setup_of(rt, "0C00000000000001", &empty, 0)
}

fn settings_on(rt: &impl Print) -> io::Result<()> {
    let a = bytes_of::<32>(&A);
    for m in 0..=4 {
        counted_on(rt, "A", &a, m, 2048)?;
    }
    counted_on(rt, "A, 2047 bytes", &a, 0, 2047)?;
    let all = bytes_of::<8>(&[0xFC00000000000000]);
    counted_on(rt, "FC00000000000000", &all, 31, 512)
}

fn closest_setups(rt: &impl Print) -> io::Result<()> {
    let a = bytes_of::<32>(&A);
    for x in [5, 4, 6, 8] {
        closest_to(rt, "A", &a, x, 64)?;
    }
    closest_to(rt, "A, 63 bytes", &a, 5, 63)?;
    let flagged = bytes_of::<32>(&OTHERS);
    closest_to(rt, "A with header 0C00000060000007", &flagged, 0, 64)?;
    let empty = bytes_of::<8>(&EMPTY);
    for x in [5, 8] {
        closest_to(rt, "0C00000000000001", &empty, x, 16)?;
    }
    Ok(())
}

fn setups_ruled_out(rt: &impl Print) -> io::Result<()> {
    let a = bytes_of::<32>(&A);
    for x in [5, 6, 4, 8] {
        ruled_out(rt, "A", &a, x)?;
    }
    let flagged = bytes_of::<32>(&OTHERS);
    ruled_out(rt, "A with header 0C00000060000007", &flagged, 3)?;
    let empty = bytes_of::<8>(&EMPTY);
    ruled_out(rt, "0C00000000000001", &empty, 5)
}

fn lists_of_numbers(rt: &impl Print) -> io::Result<()> {
    let a = bytes_of::<32>(&A);
    say_list(rt, "A", &a, &bytes_of::<24>(&[0, 4, 5]), &mut [0; 24])?;
    for ranks in [[5, 5], [4, 3], [0, 6], [6, 5]] {
        say_list(rt, "A", &a, &bytes_of::<16>(&ranks), &mut [0; 16])?;
    }
    say_list(rt, "A", &a, &[], &mut [])?;
    let list = bytes_of::<16>(&[0, 4]);
    say_list(rt, "A, room for one", &a, &list, &mut [0; 15])?;
    let empty = bytes_of::<8>(&EMPTY);
    say_list(rt, "0C00000000000001", &empty, &[0; 7], &mut [])
}

fn divisions(rt: &impl Print) -> io::Result<()> {
    for (k, shown) in [(4, 4), (8, 8), (65535, 8), (65536, 1)] {
        sizes(rt, k, shown)?;
    }
    for (k, j) in [
        (2, 0),
        (2, 1),
        (8, 4),
        (65535, 0),
        (65535, 65534),
        (65536, 0),
    ] {
        part_of(rt, k, j)?;
    }
    Ok(())
}

fn with_itself(rt: &impl Print) -> io::Result<()> {
    let a = bytes_of::<32>(&A);
    combined(rt, "A joined with A", Operation::Joined, &a, 192)?;
    combined(rt, "A shared with A", Operation::Shared, &a, 192)?;
    combined(rt, "A without A", Operation::Without, &a, 192)?;
    combined(rt, "A joined with A, 191 bytes", Operation::Joined, &a, 191)
}

fn with_the_others(rt: &impl Print) -> io::Result<()> {
    let others = bytes_of::<32>(&OTHERS);
    combined(
        rt,
        "A joined with the others",
        Operation::Joined,
        &others,
        320,
    )?;
    combined(rt, "A without the others", Operation::Without, &others, 320)
}

fn with_the_odd_ones(rt: &impl Print) -> io::Result<()> {
    let odd = bytes_of::<16>(&[0x0C00000020000002, A[1]]);
    combined(
        rt,
        "A shared with the odd ones",
        Operation::Shared,
        &odd,
        320,
    )?;
    combined(rt, "A without the odd ones", Operation::Without, &odd, 320)
}

fn with_other_settings(rt: &impl Print) -> io::Result<()> {
    let two = [0x0800000020000002, A[1]];
    combined(
        rt,
        "A with n = 2",
        Operation::Shared,
        &bytes_of::<16>(&two),
        320,
    )?;
    combined(
        rt,
        "A with 15 bytes",
        Operation::Shared,
        &bytes_of::<15>(&two),
        320,
    )
}

fn loose_tables(rt: &impl Print) -> io::Result<()> {
    made_proper(rt, "A", &bytes_of::<32>(&A), 4288, 32)?;
    print!(rt; "loose A:")?;
    say_words(rt, &LOOSE)?;
    println!(rt)?;
    made_proper(rt, "loose A", &LOOSE, 4480, 32)?;
    made_proper(rt, "loose A, 559 places,", &LOOSE, 4472, 32)?;
    made_proper(rt, "loose A, 31 bytes,", &LOOSE, 4480, 31)?;
    let root = bytes_of::<32>(&[0x0C00000060000008, A[1], A[2], A[3]]);
    made_proper(rt, "A with root 8", &root, 4288, 32)?;
    let above = bytes_of::<32>(&[A[0], 0x0400000000000008, A[2], A[3]]);
    made_proper(rt, "A with record 1 as 0400000000000008", &above, 4288, 32)?;
    let high = bytes_of::<32>(&[A[0], A[1], 0x08000000C0000003, A[3]]);
    made_proper(rt, "A with record 2 as 08000000C0000003", &high, 4288, 32)
}

fn main(rt: HostRuntime) -> io::Result<()> {
    refused_tables(&rt)?;
    accepted_tables(&rt)?;
    setup_too_large(&rt)?;
    sheet_too_short(&rt)?;
    numbers(&rt)?;
    settings_on(&rt)?;
    closest_setups(&rt)?;
    setups_ruled_out(&rt)?;
    lists_of_numbers(&rt)?;
    divisions(&rt)?;
    with_itself(&rt)?;
    with_the_others(&rt)?;
    with_the_odd_ones(&rt)?;
    with_other_settings(&rt)?;
    loose_tables(&rt)?;
    Ok(())
}
