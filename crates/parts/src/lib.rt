// Writing a part of a division: the operation part_write, which has no `requires`.
#![tactic(auto)]

ghost use Rattle.std.specs.Prelude.{◌≡◌, ◌+◌, ◌*◌, ◌≤◌, ◌^◌, length};
ghost use Rattle.words.specs.Words.{word_at};
ghost use Rattle.diagram.specs.Meaning.{under};
ghost use Rattle.diagram.specs.Count.{count_below};
ghost use Rattle.counting.specs.Inner.{Opens, Countable};
ghost use Rattle.checking.specs.Inner.{Past};
ghost use Rattle.division.specs.Span.{within};
ghost use Rattle.tables.specs.Writing.{length_of, out_after};
ghost use Rattle.tables.specs.Answers.{written_as};
ghost use Rattle.tables.specs.Inner.{Writes};
ghost use Rattle.parts.specs.Operations.{needed, part_of, Promise};

use diagram::{Edge, Rank};
use division::Extent;
use rules::Refusal;

// Writes the table of a part, by its extent. The sheet's places 0 to N hold the shares until the part's two bounds are known; then all places that are needed are for the new numbers.
fn write_extent(
    table: &[u8],
    sheet: &mut [u8],
    out: &mut [u8],
    n: u64,
    nodes: usize,
    root: Edge,
    extent: Extent,
) -> Result<usize, Refusal>
    requires { Countable table.now sheet.old n nodes root.value × Opens table.now sheet.old root.value n × (8 * needed nodes ≤ length sheet.old)
        × (extent.start.0 + extent.size ≤ count_below (under (word_at table.now) root.value) (2 ^ n)) }
    ensures { Writes n (within (under (word_at table.now) root.value) extent.start.0 extent.size) out.old (written_as result) out.new
        × Past (needed nodes) sheet.old sheet.new }
{
    if extent.size == 0 {
        return writing::write_nothing(out, n);
    }
    let first = extent.start.0;
    let last = first + (extent.size - 1);
    let lo = descent::descend(table, sheet, n, root, Rank(first));
    let hi = descent::descend(table, sheet, n, root, Rank(last));
    let end = 8 * (nodes + 512);
    writing::write_between(
        table,
        &mut sheet[..end],
        out,
        n as usize,
        nodes,
        root,
        lo,
        hi,
    )
}

// Writes part j of k of the setups of n settings that edge root permits, or rule 15.
fn write_part(
    table: &[u8],
    sheet: &mut [u8],
    out: &mut [u8],
    n: u64,
    nodes: usize,
    root: Edge,
    k: u64,
    j: u64,
) -> Result<usize, Refusal>
    requires { Countable table.now sheet.old n nodes root.value × (8 * needed nodes ≤ length sheet.old) }
    ensures { (written_as result ≡ length_of (part_of k j (length out.old) n (under (word_at table.now) root.value)))
        × (out.new ≡ out_after (part_of k j (length out.old) n (under (word_at table.now) root.value)) out.old)
        × Past (needed nodes) sheet.old sheet.new }
{
    let extent = division::span_under(table, sheet, n, nodes, root, k, j)?;
    write_extent(table, sheet, out, n, nodes, root, extent)
}

// Writes part j of k of the table as a table of its own, into the beginning of the out memory.
pub fn part_write(
    table: &[u8],
    k: u64,
    j: u64,
    sheet: &mut [u8],
    out: &mut [u8],
) -> Result<usize, Refusal>
    ensures { Promise table.now k j sheet.old out.old (written_as result) sheet.new out.new }
{
    let header = checking::begin_with(table, sheet, 1, 512)?;
    let written = write_part(
        table,
        sheet,
        out,
        header.settings,
        header.nodes,
        header.root,
        k,
        j,
    );
    words::blank(sheet, header.nodes + 512);
    written
}
