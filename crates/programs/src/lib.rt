// What programs use: table A and words laid out as bytes (`samples`), and the reading of a table from standard input (`setuplist`, `diagram_dot`).
#![tactic(auto)]

ghost use Rattle.std.specs.Prelude.{◌≡◌, ◌≤◌, ◌<◌, ℕ, length, slice_index, IfOk, OnErr, MatchOption};
ghost use Rattle.programs.specs.Laying.{byte_of};
ghost use Rattle.programs.specs.Reading.{IsPrefixLen};

use std::io::{Print, Read};
use std::{array, io};

// Table A.
pub const A: [u64; 4] = [
    0x0C00000060000006,
    0x0400000000000001,
    0x0800000040000003,
    0x0C00000080000000,
];

// Byte i of a row of words, most significant first; 0 past the end.
fn byte_of(words: &[u64], i: usize) -> u8
    ensures { result ≡ byte_of words.now i }
{
    let word = words.get(i / 8).copied().unwrap_or(0);
    word.to_be_bytes()[i % 8]
}

// The first N bytes of a row of words; zeros past the end.
pub fn bytes_of<const N: usize>(words: &[u64]) -> [u8; N]
    ensures { (i : ℕ) → i < N → slice_index result i ≡ byte_of words.now i }
{
    array::from_fn(|i| byte_of(words, i))
}

// Reads until the memory is full or the input ends: how many bytes.
fn read_full<R: Read>(from: &mut R, memory: &mut [u8]) -> io::Result<usize>
    ensures { IfOk result (λ n. n ≤ length memory.new) }
{
    let mut length = 0;
    while length < memory.len() {
        let more = from.read(&mut memory[length..])?;
        if more == 0 {
            return Ok(length);
        }
        length += more;
    }
    Ok(length)
}

// Reads a table of at most 4,096 bytes, and gives its length. Of a longer one it says `too long`: then the memory is full. A failed read or
// write is returned; what was read by then stands in the memory, which is as long as it was.
// (It gives the length and not the slice: a clause on Err can name the memory only where the result doesn't borrow it.)
pub fn read_table<R: io::Input + Print>(
    rt: &R,
    memory: &mut [u8; 4097],
) -> io::Result<Option<usize>>
    ensures ok { IfOk result (λ table. MatchOption table (IsPrefixLen (length memory.new) memory.new)
        (λ n. IsPrefixLen n memory.new × (n ≤ 4096))) }
    ensures err { OnErr result (length memory.new ≡ length memory.old) }
{
    let length = read_full(&mut rt.reader(), memory)?;
    if length <= 4096 {
        return Ok(Some(length));
    }
    println!(rt; "too long")?;
    Ok(None)
}
