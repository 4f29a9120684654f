// Two tables of equal n made into one: joined, shared, or the first without the second. It has no `requires`.
#![tactic(auto)]

ghost use Rattle.std.specs.Prelude.{◌≡◌, ◌*◌, ◌/◌, ◌≤◌, length};
ghost use Rattle.words.specs.Words.{word_at};
ghost use Rattle.diagram.specs.Ordered.{HasDiagram};
ghost use Rattle.tables.specs.Answers.{written_as};
ghost use Rattle.tables.specs.Writing.{length_of, out_after};
ghost use Rattle.combining.specs.Operations.{combine_roots, combine_tables, pairs_after, Promise};
ghost use Rattle.combining.specs.Answers.{combined_as};
ghost use Rattle.combining.specs.Inner.{Checks};

use diagram::Edge;
use naming::Operation;
use rules::Refusal;

// Why nothing was written: the refusal of the first table, of the second, or of both together.
#[derive(Clone, Copy, Debug, PartialEq, Eq)]
pub enum Fault {
    First(Refusal),
    Second(Refusal),
    Both(Refusal),
}

// Writes the table of the setups that the operation names, by two root edges: rules 20, 16 and 11. The sheet has room for p pairs.
fn combine_roots(
    table1: &[u8],
    table2: &[u8],
    sheet: &mut [u8],
    out: &mut [u8],
    p: usize,
    n: u64,
    root1: Edge,
    root2: Edge,
    op: Operation,
) -> Result<usize, Refusal>
    requires { HasDiagram table1.now n (root1.value / 2) × HasDiagram table2.now n (root2.value / 2) × (32 * p ≤ length sheet.old) }
    ensures { (written_as result ≡ length_of (combine_roots op (word_at table1.now) (word_at table2.now) n root1.value root2.value p (length out.old)))
        × (out.new ≡ out_after (combine_roots op (word_at table1.now) (word_at table2.now) n root1.value root2.value p (length out.old)) out.old) }
{
    let found = pairing::explore(table1, table2, sheet, p, n, root1, root2);
    let Some(count) = found else {
        return Err(Refusal::TooManyPairs);
    };
    naming::ready_all(table1, table2, sheet, p, count, op);
    compiling::write_root(sheet, out, p, count, n, Edge::ALWAYS)
}

// ... of two accepted tables: rule 19 before these. Once the pair sheet has been used all its places are zero.
fn combine_tables(
    table1: &[u8],
    table2: &[u8],
    pairs: &mut [u8],
    out: &mut [u8],
    op: Operation,
) -> Result<usize, Refusal>
    requires { Checks table1.now × Checks table2.now }
    ensures { (written_as result ≡ length_of (combine_tables op (word_at table1.now) (word_at table2.now) (length pairs.old / 32) (length out.old)))
        × (out.new ≡ out_after (combine_tables op (word_at table1.now) (word_at table2.now) (length pairs.old / 32) (length out.old)) out.old)
        × (pairs.new ≡ pairs_after (combine_tables op (word_at table1.now) (word_at table2.now) (length pairs.old / 32) (length out.old)) pairs.old) }
{
    let first = diagram::header_of(table1);
    let second = diagram::header_of(table2);
    if first.settings != second.settings {
        return Err(Refusal::UnequalSettings);
    }
    let places = pairs.len() / 8;
    let p = pairs.len() / 32;
    let written = combine_roots(
        table1,
        table2,
        &mut pairs[..32 * p],
        out,
        p,
        first.settings,
        first.root,
        second.root,
        op,
    );
    words::blank(pairs, places);
    written
}

// Makes two tables into one, in the beginning of the out memory.
pub fn combine(
    op: Operation,
    table1: &[u8],
    sheet1: &mut [u8],
    table2: &[u8],
    sheet2: &mut [u8],
    pairs: &mut [u8],
    out: &mut [u8],
) -> Result<usize, Fault>
    ensures { Promise op table1.now sheet1.old table2.now sheet2.old pairs.old out.old
        (combined_as result) sheet1.new sheet2.new pairs.new out.new }
{
    checking::check(table1, sheet1).map_err(Fault::First)?;
    checking::check(table2, sheet2).map_err(Fault::Second)?;
    combine_tables(table1, table2, pairs, out, op).map_err(Fault::Both)
}
