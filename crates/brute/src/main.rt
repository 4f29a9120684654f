// Compares the library with a reader of its own, which takes the paper at its word and tries every setup.
#![tactic(auto)]

ghost use Rattle.std.specs.Prelude.{◌/◌, ◌≤◌, ◌<◌, length};

use diagram::{Rank, Setup};
use std::io::Print;
use std::{array, io};

// Table A.
const A: [u64; 4] = [
    0x0C00000060000006,
    0x0400000000000001,
    0x0800000040000003,
    0x0C00000080000000,
];

// The first three permitted setups of A.
const FIRST_HALF: [u64; 4] = [
    0x0C00000060000007,
    0x0400000000000001,
    0x0800000040000001,
    0x0C00000000000004,
];

// The last three.
const SECOND_HALF: [u64; 5] = [
    0x0C00000080000008,
    0x0400000000000001,
    0x0800000040000001,
    0x0800000040000003,
    0x0C000000C0000004,
];

// Long gaps: nodes of heights 1, 5 and 12.
const GAPS: [u64; 4] = [
    0x3000000060000006,
    0x0400000000000001,
    0x1400000000000003,
    0x3000000040000005,
];

// Parity of eight settings: a node for each height.
const PARITY: [u64; 9] = [
    0x2000000100000010,
    0x0400000000000001,
    0x0800000040000003,
    0x0C00000080000005,
    0x10000000C0000007,
    0x1400000100000009,
    0x180000014000000B,
    0x1C0000018000000D,
    0x20000001C000000F,
];

// Functions of 4, 5 and 6 settings, drawn at random.
const RANDOM_4: [u64; 8] = [
    0x10000000E000000E,
    0x0400000000000001,
    0x0800000000000003,
    0x0800000040000000,
    0x0800000040000003,
    0x0C00000080000000,
    0x0C00000100000007,
    0x100000014000000D,
];

const RANDOM_5: [u64; 13] = [
    0x1400000180000019,
    0x0400000000000001,
    0x0800000000000001,
    0x0800000000000002,
    0x0800000040000001,
    0x0800000040000003,
    0x0C00000040000008,
    0x0C000000C0000004,
    0x0C00000140000007,
    0x0C00000140000009,
    0x10000001C0000010,
    0x100000024000000C,
    0x1400000280000017,
];

const RANDOM_6: [u64; 13] = [
    0x1800000180000018,
    0x0400000000000001,
    0x0800000040000000,
    0x0800000040000001,
    0x0C00000000000007,
    0x0C00000080000000,
    0x0C000000C0000001,
    0x100000000000000A,
    0x10000000C0000009,
    0x1000000180000001,
    0x14000001C0000011,
    0x1400000240000001,
    0x18000002C0000015,
];

// Byte i of a row of words, most significant first; 0 past the end. (By shifts, and not as `programs` has it: this program shares no code with anything.)
fn byte_of(words: &[u64], i: usize) -> u8 {
    let word = words.get(i / 8).copied().unwrap_or(0);
    ((word >> (8 * (7 - i % 8))) % 256) as u8
}

// The first N bytes of a row of words; zeros past the end.
fn bytes_of<const N: usize>(words: &[u64]) -> [u8; N] {
    array::from_fn(|i| byte_of(words, i))
}

// Word k of a row of bytes, most significant byte first; 0 past the end.
fn word(bytes: &[u8], k: usize) -> u64 {
    if bytes.len() / 8 <= k {
        return 0;
    }
    bytes[8 * k..8 * k + 8]
        .iter()
        .fold(0, |w, &byte| w << 8 | u64::from(byte))
}

// A word's first 6 bits: n, or a height.
fn upper(w: u64) -> u64
    ensures { result < 64 }
{
    w / 0x0400000000000000
}

// The 29 bits after those: N, or a then-edge.
fn middle(w: u64) -> u64 {
    w / 0x20000000 % 0x20000000
}

// The last 29 bits: the root edge, or an else-edge.
fn lower(w: u64) -> u64 {
    w % 0x20000000
}

// Reads setup x from an edge on: a node of height h takes its then-edge if the bit of weight 2^(h-1) is 1. Permitted if the number of set
// flags passed is even. None where the walk is lost: a record is missing or has height 0, or the walk does not end.
fn read(table: &[u8], start: u64, x: u64) -> Option<bool> {
    let mut edge = start;
    let mut permitted = true;
    for _ in 0..64 {
        permitted ^= edge % 2 == 1;
        let node = (edge / 2) as usize;
        if node == 0 {
            return Some(permitted);
        }
        let record = word(table, node);
        let weight = upper(record).checked_sub(1)?;
        edge = if (x >> weight) % 2 == 1 {
            middle(record)
        } else {
            lower(record)
        };
    }
    None
}

// Whether the reader finds setup x permitted under an edge.
fn permits(table: &[u8], edge: u64, x: u64) -> bool {
    read(table, edge, x) == Some(true)
}

// How many of the first setups the reader finds permitted under an edge.
fn tally(table: &[u8], edge: u64, setups: u64) -> u64 {
    (0..setups).filter(|&x| permits(table, edge, x)).count() as u64
}

// 2^h, or 0 where that is above 4,096: such a table is not tried.
fn setups_below(h: u64) -> u64
    ensures { result ≤ 4096 }
{
    let setups = 1 << (h % 64);
    if 4096 < setups { 0 } else { setups }
}

// Whether place k differs from the reader's count under a plain edge to node k.
fn place_differs(table: &[u8], sheet: &[u8], k: usize) -> bool {
    let h = if 0 < k { upper(word(table, k)) } else { 0 };
    let plain = (k as u64) << 1;
    tally(table, plain, setups_below(h)) != word(sheet, k)
}

// A table as the reader takes it: its root edge, and how many setups are tried.
#[derive(Clone, Copy)]
struct Sample<'a> {
    table: &'a [u8],
    root: u64,
    setups: u64,
    ghost few: { setups ≤ 4096 },
}

impl<'a> Sample<'a> {
    fn of(table: &'a [u8]) -> Self {
        let header = word(table, 0);
        Sample {
            table,
            root: lower(header),
            setups: setups_below(upper(header)),
        }
    }

    // Whether the library's test of setup x differs from the reader.
    fn test_differs(&self, x: u64) -> bool {
        let mut sheet = [0; 128];
        match checking::test(self.table, Setup(x), &mut sheet) {
            Ok(permitted) => read(self.table, self.root, x) != Some(permitted),
            Err(_) => true,
        }
    }

    // In how many setups it does.
    fn tests_differ(&self) -> u64
        ensures { result ≤ self.now.setups }
    {
        (0..self.setups).filter(|&x| self.test_differs(x)).count() as u64
    }

    // Whether the library's setup of a rank is not x.
    fn unrank_differs(&self, rank: Rank, x: u64) -> bool {
        let mut sheet = [0; 128];
        match ranking::unrank(self.table, rank, &mut sheet) {
            Ok(setup) => setup.0 != x,
            Err(_) => true,
        }
    }

    // Whether the library ranks setup x, which comes after `before` permitted ones, otherwise than the reader, or does not come back to it.
    fn rank_differs(&self, x: u64, before: u64) -> bool {
        let mut sheet = [0; 128];
        let permitted = permits(self.table, self.root, x);
        match ranking::rank(self.table, Setup(x), &mut sheet) {
            Ok(rank) => { !permitted || rank.0 != before || self.unrank_differs(rank, x) }
            Err(refusal) => permitted || rules::number_of(refusal) != 13,
        }
    }

    // In how many setups the library's ranks differ from the reader's numbering.
    fn ranks_differ(&self) -> u64
        ensures { result ≤ self.now.setups }
    {
        let mut differences = 0;
        let mut before = 0;
        for x in 0..self.setups {
            differences += u64::from(self.rank_differs(x, before));
            before += u64::from(permits(self.table, self.root, x));
        }
        differences
    }

    // In how many of its places a sheet differs from the reader's counts.
    fn places_differ(&self, sheet: &[u8]) -> usize
        ensures { result ≤ length self.now.table.now / 8 }
    {
        (0..self.table.len() / 8)
            .filter(|&k| place_differs(self.table, sheet, k))
            .count()
    }
}

// A table's line: what the reader permits, and in how many points the library differs.
fn compare(rt: &impl Print, name: &str, table: &[u8]) -> io::Result<()> {
    let sample = Sample::of(table);
    let setups = sample.setups;
    let places = table.len() / 8;
    let permitted = tally(table, sample.root, setups);
    let mut sheet = [0; 128];
    let counted = checking::count(table, &mut sheet);
    let differences = u64::from(counted != Ok(permitted))
        + sample.tests_differ()
        + sample.ranks_differ()
        + sample.places_differ(&sheet) as u64;
    println!(rt;
        "{name}: {permitted} permitted, {setups} setups, their ranks and {places} places compared, {differences} differences"
    )
}

fn main(rt: HostRuntime) -> io::Result<()> {
    compare(&rt, "A", &bytes_of::<32>(&A))?;
    compare(
        &rt,
        "A complemented",
        &bytes_of::<32>(&[0x0C00000060000007, A[1], A[2], A[3]]),
    )?;
    compare(&rt, "A, part 0 of 2", &bytes_of::<32>(&FIRST_HALF))?;
    compare(&rt, "A, part 1 of 2", &bytes_of::<40>(&SECOND_HALF))?;
    compare(&rt, "n = 10, all", &bytes_of::<8>(&[0x2800000000000000]))?;
    compare(&rt, "n = 3, none", &bytes_of::<8>(&[0x0C00000000000001]))?;
    compare(&rt, "n = 0, all", &bytes_of::<8>(&[0x0000000000000000]))?;
    compare(&rt, "n = 0, none", &bytes_of::<8>(&[0x0000000000000001]))?;
    compare(&rt, "long gaps", &bytes_of::<32>(&GAPS))?;
    compare(&rt, "parity", &bytes_of::<72>(&PARITY))?;
    compare(&rt, "random, n = 4", &bytes_of::<64>(&RANDOM_4))?;
    compare(&rt, "random, n = 5", &bytes_of::<104>(&RANDOM_5))?;
    compare(&rt, "random, n = 6", &bytes_of::<104>(&RANDOM_6))?;
    Ok(())
}
