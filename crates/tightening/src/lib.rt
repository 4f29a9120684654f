// A loose table made proper. It has no `requires`.
#![tactic(auto)]

ghost use Rattle.std.specs.Prelude.{◌≡◌, ◌+◌, ◌*◌, ◌≤◌, length};
ghost use Rattle.words.specs.Words.{word_at};
ghost use Rattle.diagram.specs.Format.{settings};
ghost use Rattle.diagram.specs.Meaning.{permitted};
ghost use Rattle.diagram.specs.Ordered.{Accepted};
ghost use Rattle.diagram.specs.Reading.{IsHeader};
ghost use Rattle.loose.specs.Inner.{Loosely};
ghost use Rattle.tables.specs.Answers.{written_as};
ghost use Rattle.tightening.specs.Operations.{Promise};
ghost use Rattle.tightening.specs.Inner.{Tightens, Copied};

use diagram::Edge;
use rules::Refusal;

// Copies the first m words of a table. (Word by word, as `compiling::copy_records` and for the same reason.)
fn copy_words(table: &[u8], out: &mut [u8], m: usize)
    requires { (8 * m ≤ length table.now) × (8 * m ≤ length out.old) }
    ensures { Copied table.now out.new m × (length out.new ≡ length out.old) }
{
    for k in 0..m {
        words::put_word(out, k, words::word_at(table, k));
    }
}

// Writes an accepted table of N nodes as it is: rule 11.
fn copy_table(table: &[u8], out: &mut [u8], nodes: usize) -> Result<usize, Refusal>
    requires { Accepted table.now (settings (word_at table.now)) nodes }
    ensures { Tightens (settings (word_at table.now)) nodes (permitted (word_at table.now)) out.old (written_as result) out.new }
{
    let end = 8 * (nodes + 1);
    if out.len() < end {
        return Err(Refusal::Out);
    }
    copy_words(table, &mut out[..end], nodes + 1);
    Ok(end)
}

// Writes the table of what a loose table of N nodes permits: rule 11.
fn tighten(
    table: &[u8],
    sheet: &mut [u8],
    out: &mut [u8],
    n: u64,
    nodes: usize,
    root: Edge,
) -> Result<usize, Refusal>
    requires { Loosely table.now n nodes × IsHeader (word_at table.now) n nodes root.value × (40 * (nodes + 1) ≤ length sheet.old) }
    ensures { Tightens n nodes (permitted (word_at table.now)) out.old (written_as result) out.new }
{
    let p = nodes + 1;
    gathering::gather(table, sheet, p, root.node());
    compiling::write_root(sheet, out, p, p, n, root)
}

// Makes a loose table proper, be it a table or not.
fn make_loose_proper(table: &[u8], sheet: &mut [u8], out: &mut [u8]) -> Result<usize, Refusal>
    ensures { Promise table.now sheet.old out.old (written_as result) sheet.new out.new }
{
    rules::check_header(table, sheet.len() / 8, 8, 512, true)?;
    let header = diagram::header_of(table);
    let nodes = header.nodes;
    loose::check_records(table, header.settings, nodes)?;
    let end = 40 * (nodes + 1);
    let written = tighten(
        table,
        &mut sheet[..end],
        out,
        header.settings,
        nodes,
        header.root,
    );
    words::blank(sheet, 8 * nodes + 512);
    written
}

// Makes a loose table proper, in the beginning of the out memory. A table that is accepted is its own answer.
pub fn make_proper(table: &[u8], sheet: &mut [u8], out: &mut [u8]) -> Result<usize, Refusal>
    ensures { Promise table.now sheet.old out.old (written_as result) sheet.new out.new }
{
    if let Ok(header) = checking::begin_with(table, sheet, 8, 512) {
        words::blank(sheet, 8 * header.nodes + 512);
        return copy_table(table, out, header.nodes);
    }
    make_loose_proper(table, sheet, out)
}
