// The closest permitted setup: the one that differs from another in the fewest settings. It has no `requires`.
#![tactic(auto)]

ghost use Rattle.std.specs.Prelude.{◌≡◌, ◌*◌, ◌≤◌, length};
ghost use Rattle.words.specs.Words.{word_at};
ghost use Rattle.diagram.specs.Meaning.{under};
ghost use Rattle.counting.specs.Inner.{Countable};
ghost use Rattle.checking.specs.Operations.{blank_for};
ghost use Rattle.distances.specs.Inner.{Nearest};
ghost use Rattle.correcting.specs.Answers.{corrected_as};
ghost use Rattle.correcting.specs.Operations.{needed, closest_setup, correcting};
ghost use Rattle.correcting.specs.Inner.{Seekable};

use diagram::{Edge, Setup};
use rules::Refusal;

// A setup, and in how many settings it differs.
#[derive(Clone, Copy, Debug, PartialEq, Eq)]
pub struct Correction {
    pub setup: Setup,
    pub distance: u64,
}

// The setup nearest to x, which edge e does not permit, of those that it does. In a table of many records those one setting off are tried first: that takes at most 2,016 steps.
fn nearest_under(table: &[u8], sheet: &mut [u8], n: u64, nodes: usize, e: Edge, x: Setup) -> Setup
    requires { Seekable table.now sheet.old n nodes e.value x.0 }
    ensures { Nearest (under (word_at table.now) e.value) n x.0 result.0 }
{
    if 512 <= nodes {
        if let Some(y) = neighbours::beside(table, e, x) {
            return y;
        }
    }
    nearing::fill(table, sheet, n, nodes, x);
    nearing::nearest(table, sheet, e, x)
}

// The closest setup to x of those of n settings that edge e permits, or rule 12, or rule 21. The sheet has two places for each node.
fn closest_setup(
    table: &[u8],
    sheet: &mut [u8],
    n: u64,
    nodes: usize,
    e: Edge,
    x: Setup,
) -> Result<Correction, Refusal>
    requires { Countable table.now sheet.old n nodes e.value × (8 * needed nodes ≤ length sheet.old) }
    ensures { corrected_as result ≡ closest_setup x.0 n (under (word_at table.now) e.value) }
{
    let permitted = checking::test_setup(table, n, e, x)?;
    if permitted {
        return Ok(Correction {
            setup: x,
            distance: 0,
        });
    }
    if e == Edge::NEVER {
        return Err(Refusal::NonePermitted);
    }
    let setup = nearest_under(table, sheet, n, nodes, e, x);
    let distance = distances::between(x, setup);
    Ok(Correction { setup, distance })
}

// Finds the permitted setup that is closest to x, the smallest of several.
pub fn closest(table: &[u8], x: Setup, sheet: &mut [u8]) -> Result<Correction, Refusal>
    ensures { (corrected_as result ≡ correcting table.now x.0 sheet.old)
        × (sheet.new ≡ blank_for needed table.now sheet.old) }
{
    let header = checking::begin_with(table, sheet, 2, 2)?;
    let places = 2 * (header.nodes + 1);
    let end = 8 * places;
    let found = closest_setup(
        table,
        &mut sheet[..end],
        header.settings,
        header.nodes,
        header.root,
        x,
    );
    words::blank(sheet, places);
    found
}
