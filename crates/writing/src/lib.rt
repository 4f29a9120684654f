// The table of the setups between two bounds: cut out, marked, numbered anew, and written.
#![tactic(auto)]

ghost use Rattle.std.specs.Prelude.{◌≡◌, false, ℕ, ◌+◌, ◌/◌, ◌≤◌, ◌<◌, ◌^◌, length};
ghost use Rattle.words.specs.Words.{word_at};
ghost use Rattle.diagram.specs.Meaning.{under};
ghost use Rattle.diagram.specs.Ordered.{Reduced};
ghost use Rattle.cutting.specs.Cut.{Room};
ghost use Rattle.cutting.specs.Behind.{words_of, Fits, SameTable};
ghost use Rattle.tables.specs.Answers.{written_as};
ghost use Rattle.tables.specs.Inner.{Writes};
ghost use Rattle.writing.specs.Inner.{between, IsBuilt};

use cutting::Extended;
use diagram::{Edge, Header, Setup};
use rules::Refusal;

// A diagram that is numbered anew: how many records it has, and its root's edge in the old numbers.
#[derive(Clone, Copy, Debug, PartialEq, Eq)]
struct Built {
    records: u64,
    edge: Edge,
}

// Cuts the table at both bounds, marks what is left and numbers it.
fn build(cut: &mut Extended, map: &mut [u8], root: Edge, lo: Setup, hi: Setup) -> Built
    requires { Fits map.old cut.old × Reduced (word_at cut.old.table.now) cut.old.n cut.old.nodes × (root.value / 2 ≤ cut.old.nodes)
        × (lo.0 < 2 ^ cut.old.n) × (hi.0 < 2 ^ cut.old.n) }
    ensures { IsBuilt (word_at cut.old.table.now) cut.old.n cut.old.nodes root.value lo.0 hi.0
        (words_of cut.new) (word_at map.new) result.records result.edge.value
        × SameTable cut.old cut.new × (length map.new ≡ length map.old) }
{
    let lower = cut.add_cut(0, root, lo, true);
    let edge = cut.add_cut(cut.n, lower, hi, false);
    marking::mark(cut, map, edge);
    let records = merging::number(cut, map);
    Built { records, edge }
}

// Writes the table of the setups from lo to hi that edge root permits, of n settings. The map has a place for each node of the table and of two cuts.
// (Table, n, nodes and root come apart, as what a passed check leaves: a rule of the project, docs/DECISIONS.md 26.)
pub fn write_between(
    table: &[u8],
    map: &mut [u8],
    out: &mut [u8],
    n: usize,
    nodes: usize,
    root: Edge,
    lo: Setup,
    hi: Setup,
) -> Result<usize, Refusal>
    requires { Room table.now map.old n nodes × Reduced (word_at table.now) n nodes × (root.value / 2 ≤ nodes) × (lo.0 < 2 ^ n) × (hi.0 < 2 ^ n) }
    ensures { Writes n (between (under (word_at table.now) root.value) lo.0 hi.0) out.old (written_as result) out.new }
{
    let mut cut = Extended {
        table,
        more: [0; 128],
        n,
        nodes,
    };
    let built = build(&mut cut, map, root, lo, hi);
    if 65535 < built.records {
        return Err(Refusal::TooManyNodes);
    }
    let count = built.records as usize;
    let end = 8 * (count + 1);
    if out.len() < end {
        return Err(Refusal::Out);
    }
    emitting::write_table(&cut, map, &mut out[..end], count, built.edge);
    Ok(end)
}

// Writes the table of no setups: the header alone.
pub fn write_nothing(out: &mut [u8], n: u64) -> Result<usize, Refusal>
    requires { n ≤ 63 }
    ensures { Writes n (λ (x : ℕ). false) out.old (written_as result) out.new }
{
    if out.len() < 8 {
        return Err(Refusal::Out);
    }
    let header = Header {
        settings: n,
        nodes: 0,
        root: Edge::NEVER,
    };
    words::put_word(out, 0, header.word());
    Ok(8)
}
