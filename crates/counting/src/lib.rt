// Counting by shares: a node's place in the sheet holds how many of the setups of 63 settings a plain edge to it permits. A share is one number for every height, so a gap costs nothing. It stands least significant byte first, as the machine loads it.
#![tactic(auto)]

ghost use Rattle.std.specs.Prelude.{◌≡◌, ◌+◌, ◌*◌, ◌≤◌, ◌<◌, length};
ghost use Rattle.words.specs.Words.{word_at, put_word, words_over};
ghost use Rattle.diagram.specs.Count.{place};
ghost use Rattle.diagram.specs.Ordered.{Reduced, HasDiagram};
ghost use Rattle.counting.specs.Inner.{stored, Filled, Next, Opened, CountsUnder};

use diagram::{Edge, Node};

// The share of edge e: that of its node, or the others of the 2^63 under a flag.
fn share_of(sheet: &[u8], e: Edge) -> u64
    requires { Opened sheet.now e.value 63 }
    ensures { CountsUnder sheet.now e.value 63 result }
{
    let s = words::load(sheet, e.node().0);
    if e.flagged() { (1 << 63) - s } else { s }
}

// How many of the setups of h settings edge e permits.
pub fn count_under(sheet: &[u8], e: Edge, h: u64) -> u64
    requires { Opened sheet.now e.value h }
    ensures { CountsUnder sheet.now e.value h result }
{
    share_of(sheet, e) >> (63 - h)
}

// Fills place k with the share of node k: half of the setups leave it by its then-edge, which is plain, half by its else-edge.
fn enter_node(table: &[u8], sheet: &mut [u8], k: Node)
    requires { (0 < k.0) × Next table.now sheet.old k.0 }
    ensures { sheet.new ≡ put_word sheet.old k.0 (stored (word_at table.now) k.0) }
{
    let record = diagram::record_at(table, k);
    let s = words::load(sheet, record.high.node().0) / 2 + share_of(sheet, record.low) / 2;
    words::store(sheet, k.0, s);
}

// Fills places 0 to N with the shares.
pub fn fill(table: &[u8], sheet: &mut [u8], n: u64, nodes: usize)
    requires { HasDiagram table.now n nodes × Reduced (word_at table.now) n nodes × (8 * (nodes + 1) ≤ length sheet.old) }
    ensures { sheet.new ≡ words_over (stored (word_at table.now)) (nodes + 1) sheet.old }
{
    words::store(sheet, 0, 1 << 63);
    for k in 1..=nodes {
        enter_node(table, sheet, Node(k));
    }
}

// Turns the shares in places 0 to N into the counts, each of its node's own settings, most significant byte first.
pub fn settle(table: &[u8], sheet: &mut [u8], nodes: usize)
    requires { Filled table.now sheet.old nodes }
    ensures { sheet.new ≡ words_over (place (word_at table.now)) (nodes + 1) sheet.old }
{
    words::put_word(sheet, 0, 1);
    for k in 1..=nodes {
        let h = diagram::height_at(table, Node(k));
        let s = words::load(sheet, k);
        words::put_word(sheet, k, s >> (63 - h));
    }
}
