// Divisions of a table into parts: where a part starts in the numbering, and how many setups it has.
#![tactic(auto)]

ghost use Rattle.std.specs.Prelude.{◌≡◌, false, ◌+◌, ◌≤◌, ◌<◌, ◌^◌};
ghost use Rattle.words.specs.Words.{word_at};
ghost use Rattle.diagram.specs.Meaning.{under};
ghost use Rattle.diagram.specs.Count.{count_below};
ghost use Rattle.counting.specs.Inner.{stored, Countable};
ghost use Rattle.checking.specs.Operations.{sheet_by, blank};
ghost use Rattle.division.specs.Answers.{spanned_as};
ghost use Rattle.division.specs.Operations.{no_part, span_of, spanning};
ghost use Rattle.division.specs.Span.{start, size};

use diagram::{Edge, Rank};
use rules::Refusal;

// A part: the rank at which it starts (that of the next part, where it is empty), and how many setups it has.
#[derive(Clone, Copy, Debug, PartialEq, Eq)]
pub struct Extent {
    pub start: Rank,
    pub size: u64,
}

// Whether k is no number of parts, or j no index of one of them.
fn no_part(k: u64, j: u64) -> bool
    ensures { result ≡ no_part k j }
{
    if k == 0 {
        return true;
    }
    if 65535 < k {
        return true;
    }
    k <= j
}

// Where part j of k starts, of c setups: j × c / k, rounded down. That product may not fit 64 bits. With c = k × q + e the
// start is j × q + j × e / k: the first product is at most c, the other below 2^32.
fn start_of(k: u64, j: u64, c: u64) -> u64
    requires { (0 < k) × (k ≤ 65535) × (j ≤ k) }
    ensures { result ≡ start c k j }
{
    let q = c / k;
    let e = c % k;
    j * q + j * e / k
}

// Part j of k, of c setups: it ends where part j + 1 would start.
fn extent_of(k: u64, j: u64, c: u64) -> Extent
    requires { no_part k j ≡ false }
    ensures { (result.start.0 ≡ start c k j) × (result.size ≡ size c k j) }
{
    let start = start_of(k, j, c);
    let end = start_of(k, j + 1, c);
    Extent {
        start: Rank(start),
        size: end - start,
    }
}

// Rule 15, and part j of k, of the setups of n settings that edge e permits. For a part, places 0 to N are filled with the shares.
pub fn span_under(
    table: &[u8],
    sheet: &mut [u8],
    n: u64,
    nodes: usize,
    e: Edge,
    k: u64,
    j: u64,
) -> Result<Extent, Refusal>
    requires { Countable table.now sheet.old n nodes e.value }
    ensures { (spanned_as result ≡ span_of k j (count_below (under (word_at table.now) e.value) (2 ^ n)))
        × (sheet.new ≡ sheet_by (stored (word_at table.now)) (nodes + 1) (spanned_as result) sheet.old) }
{
    if no_part(k, j) {
        return Err(Refusal::PartRange);
    }
    counting::fill(table, sheet, n, nodes);
    let c = counting::count_under(sheet, e, n);
    Ok(extent_of(k, j, c))
}

// The span of part j of k.
pub fn span(table: &[u8], k: u64, j: u64, sheet: &mut [u8]) -> Result<Extent, Refusal>
    ensures { (spanned_as result ≡ spanning table.now k j sheet.old)
        × (sheet.new ≡ blank table.now sheet.old) }
{
    let header = checking::begin(table, sheet)?;
    let spanned = span_under(
        table,
        sheet,
        header.settings,
        header.nodes,
        header.root,
        k,
        j,
    );
    words::blank(sheet, header.nodes + 1);
    spanned
}
