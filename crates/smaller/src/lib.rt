// How many smaller setups an edge or a node permits.
// `Filled` is a clause of three functions and no invariant of a struct: each asks it of a node of its own, and of a table and a sheet in a struct each would have to ask that its node lies there.
#![tactic(auto)]

ghost use Rattle.std.specs.Prelude.{◌≡◌, ◌+◌, ◌*◌, ◌/◌, ◌%◌, ◌≤◌, ◌<◌, ◌^◌};
ghost use Rattle.words.specs.Words.{word_at};
ghost use Rattle.diagram.specs.Format.{height};
ghost use Rattle.diagram.specs.Meaning.{plain, under};
ghost use Rattle.diagram.specs.Count.{count_below};
ghost use Rattle.diagram.specs.Reading.{opposite};
ghost use Rattle.counting.specs.Inner.{Filled};
ghost use Rattle.smaller.specs.Inner.{IsStep};

use diagram::{Edge, Node, Rank, Setup};

// How a setup leaves a node: by this edge, past `passed` permitted setups, with these settings left.
#[derive(Clone, Copy)]
struct Step {
    edge: Edge,
    passed: u64,
    rest: Setup,
}

// Setup y leaves node k by its then-edge if its first setting is on: it is then past the else-half.
fn step_from(table: &[u8], sheet: &[u8], k: Node, y: Setup) -> Step
    requires { (0 < k.0) × Filled table.now sheet.now k.0 × (y.0 < 2 ^ height (word_at table.now) k.0) }
    ensures { IsStep (word_at table.now) k.0 y.0 result.edge.value result.passed result.rest.0 }
{
    let record = diagram::record_at(table, k);
    let h = record.height - 1;
    let half = 1 << h;
    if y.0 < half {
        Step {
            edge: record.low,
            passed: 0,
            rest: y,
        }
    } else {
        Step {
            edge: record.high,
            passed: counting::count_under(sheet, record.low, h),
            rest: Setup(y.0 - half),
        }
    }
}

// The setups below y under edge e: in whole blocks of its gap, each of `block`, and in the last one, where its node of height g permits `inside`.
fn across_gap(e: Edge, g: u64, block: u64, y: Setup, inside: Rank) -> Rank
    requires { (g ≤ 63) × (block ≤ 2 ^ g) × (inside.0 ≤ y.0 % 2 ^ g) }
    ensures { result.0 ≡ y.0 / 2 ^ g * block + opposite (e.value % 2) (y.0 % 2 ^ g) inside.0 }
{
    let before = (y.0 >> g) * block;
    if e.flagged() {
        Rank(before + (y.0 % (1 << g) - inside.0))
    } else {
        Rank(before + inside.0)
    }
}

// How many setups below y node k permits. It calls itself on the node of the edge by which y leaves: the height falls.
fn rank_at(table: &[u8], sheet: &[u8], k: Node, y: Setup) -> Rank
    requires { Filled table.now sheet.now k.0 × (y.0 < 2 ^ height (word_at table.now) k.0) }
    ensures { result.0 ≡ count_below (plain (word_at table.now) k.0) y.0 }
{
    if k.0 == 0 {
        return Rank(0);
    }
    let step = step_from(table, sheet, k, y);
    let node = step.edge.node();
    let g = diagram::height_at(table, node);
    let block = counting::count_under(sheet, step.edge, g);
    let inside = rank_at(table, sheet, node, Setup(step.rest.0 % (1 << g)));
    Rank(step.passed + across_gap(step.edge, g, block, step.rest, inside).0)
}

// How many setups below x edge e permits.
pub fn rank_under(table: &[u8], sheet: &[u8], e: Edge, x: Setup) -> Rank
    requires { Filled table.now sheet.now (e.value / 2) }
    ensures { result.0 ≡ count_below (under (word_at table.now) e.value) x.0 }
{
    let node = e.node();
    let g = diagram::height_at(table, node);
    let block = counting::count_under(sheet, e, g);
    let inside = rank_at(table, sheet, node, Setup(x.0 % (1 << g)));
    across_gap(e, g, block, x, inside)
}
