// A table made of nodes that lie in a sheet in any order: numbered, and written.
// (`sheet` and `p` stay two parameters: `keys` says why.)
#![tactic(auto)]

ghost use Rattle.std.specs.Prelude.{◌≡◌, ◌+◌, ◌*◌, ◌/◌, ◌≤◌, ◌<◌, length};
ghost use Rattle.words.specs.Words.{word_at};
ghost use Rattle.diagram.specs.Reading.{record_of};
ghost use Rattle.tables.specs.Answers.{written_as};
ghost use Rattle.compiling.specs.Inner.{HoldsDiagram, WritesRoot, HoldsTable};

use diagram::{Edge, Header};
use rules::Refusal;

// Copies `count` records, from place 0 of the sheet on, behind the header. (Word by word: `copy_from_slice` calls `memmove`, which a program that links the archive would have to bring.)
fn copy_records(sheet: &[u8], out: &mut [u8], count: usize)
    requires { (8 * count ≤ length sheet.now) × (8 * count + 8 ≤ length out.old) }
    ensures { HoldsTable (word_at sheet.now) count (word_at out.old 0) out.new
        × (length out.new ≡ length out.old) }
{
    for k in 0..count {
        words::put_word(out, k + 1, words::word_at(sheet, k));
    }
}

// Writes the table of `count` records and a root edge.
fn write_table(sheet: &[u8], out: &mut [u8], n: u64, count: usize, root: Edge)
    requires { (8 * count ≤ length sheet.now) × (8 * count + 8 ≤ length out.old) × (n ≤ 63) × (count ≤ 65535) × (root.value < 131072) }
    ensures { HoldsTable (word_at sheet.now) count (record_of n count root.value) out.new
        × (length out.new ≡ length out.old) }
{
    let header = Header {
        settings: n,
        nodes: count,
        root,
    };
    words::put_word(out, 0, header.word());
    copy_records(sheet, out, count);
}

// Writes the table of what the root edge permits, of n settings: rules 16 and 11. The nodes are used up.
pub fn write_root(
    sheet: &mut [u8],
    out: &mut [u8],
    p: usize,
    count: usize,
    n: u64,
    root: Edge,
) -> Result<usize, Refusal>
    requires { HoldsDiagram sheet.old p n count (root.value / 2) }
    ensures { WritesRoot (word_at sheet.old) p n count root.value out.old (written_as result) out.new }
{
    let Some(records) = reducing::reduce(sheet, p, count, n) else {
        return Err(Refusal::TooManyNodes);
    };
    let end = 8 * (records + 1);
    if out.len() < end {
        return Err(Refusal::Out);
    }
    let top = reducing::through_of(sheet, p, root.value);
    write_table(sheet, &mut out[..end], n, records, top);
    Ok(end)
}
