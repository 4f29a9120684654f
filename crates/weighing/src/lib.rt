// The setups by how many settings are on (their weight).
#![tactic(auto)]

ghost use Rattle.std.specs.Prelude.{◌≡◌, ◌+◌, ◌*◌, ◌≤◌, length};
ghost use Rattle.words.specs.Words.{word_at};
ghost use Rattle.diagram.specs.Meaning.{under};
ghost use Rattle.counting.specs.Inner.{Countable};
ghost use Rattle.checking.specs.Answers.{counted_as};
ghost use Rattle.checking.specs.Operations.{blank_for};
ghost use Rattle.pascal.specs.Ones.{count_on};
ghost use Rattle.weighing.specs.Operations.{needed, counting_on};

use diagram::Edge;
use rules::Refusal;

// How many setups of n settings that edge e permits have exactly m settings on. The sheet has 64 places for each node.
fn count_on_under(table: &[u8], sheet: &mut [u8], n: u64, nodes: usize, e: Edge, m: u64) -> u64
    requires { Countable table.now sheet.old n nodes e.value × (8 * needed nodes ≤ length sheet.old) }
    ensures { result ≡ count_on (under (word_at table.now) e.value) n m }
{
    if n < m {
        return 0;
    }
    rows::fill(table, sheet, n, nodes, m as usize);
    rows::count_under(sheet, e, n as usize, m as usize)
}

// Counts the permitted setups with exactly m settings on.
pub fn count_on(table: &[u8], m: u64, sheet: &mut [u8]) -> Result<u64, Refusal>
    ensures { (counted_as result ≡ counting_on table.now m sheet.old)
        × (sheet.new ≡ blank_for needed table.now sheet.old) }
{
    let header = checking::begin_with(table, sheet, 64, 64)?;
    let places = 64 * (header.nodes + 1);
    let end = 8 * places;
    let c = count_on_under(
        table,
        &mut sheet[..end],
        header.settings,
        header.nodes,
        header.root,
        m,
    );
    words::blank(sheet, places);
    Ok(c)
}
