// The pairs of edges that two tables lead to from their root edges.
// The pair sheet has four regions of p places: pair i is word i, the edge to its then-pair word p + i, to its else-pair word 3 p + i, and the slots of the set of pairs lie at 2 p. An edge to pair j is 2 j.
// (`sheet` and `p` stay two parameters: `keys` says why.)
#![tactic(auto)]

ghost use Rattle.std.specs.Prelude.{◌≡◌, true, false, ◌+◌, ◌*◌, ◌/◌, ◌≤◌, ◌<◌, length};
ghost use Rattle.words.specs.Words.{word_at};
ghost use Rattle.keys.specs.Keys.{Keys};
ghost use Rattle.diagram.specs.Format.{height};
ghost use Rattle.diagram.specs.Ordered.{HasDiagram};
ghost use Rattle.diagram.specs.Reading.{Within, cofactor};
ghost use Rattle.pairing.specs.Pairs.{pair_height, follow, pair_count};
ghost use Rattle.pairing.specs.Inner.{PairWithin, EdgesPut, Visited, Overfull, Arrives, AllPairs, Outcome};

use diagram::{Cofactors, Edge, Node};

// What a pair leads to with the setting of its height on (high) and off (low).
#[derive(Clone, Copy, Debug, PartialEq, Eq)]
struct Sides {
    high: u64,
    low: u64,
}

// The height of a pair.
pub fn pair_height(table1: &[u8], table2: &[u8], pair: u64) -> u64
    requires { PairWithin table1.now table2.now pair }
    ensures { (result ≡ pair_height (word_at table1.now) (word_at table2.now) pair) × (result ≤ 63) }
{
    let a = diagram::height_at(table1, Node((pair / 131072 / 2) as usize));
    let b = diagram::height_at(table2, Node((pair % 131072 / 2) as usize));
    a.max(b)
}

// The cofactors of edge e by the setting of height h.
fn cofactors_of(table: &[u8], e: Edge, h: u64) -> Cofactors
    requires { Within table.now (e.value / 2) × (height (word_at table.now) (e.value / 2) ≤ h) × (0 < h) }
    ensures { (result.high.value ≡ cofactor (word_at table.now) h true e.value)
        × (result.low.value ≡ cofactor (word_at table.now) h false e.value) }
{
    let node = e.node();
    if diagram::height_at(table, node) < h {
        return Cofactors { high: e, low: e };
    }
    diagram::record_at(table, node).cofactors(e)
}

// What a pair of height h leads to.
fn sides_of(table1: &[u8], table2: &[u8], pair: u64, h: u64) -> Sides
    requires { PairWithin table1.now table2.now pair × (h ≡ pair_height (word_at table1.now) (word_at table2.now) pair) × (0 < h) }
    ensures { (result.high ≡ follow (word_at table1.now) (word_at table2.now) true pair)
        × (result.low ≡ follow (word_at table1.now) (word_at table2.now) false pair) }
{
    let a = cofactors_of(
        table1,
        Edge {
            value: pair / 131072,
        },
        h,
    );
    let b = cofactors_of(
        table2,
        Edge {
            value: pair % 131072,
        },
        h,
    );
    Sides {
        high: a.high.value * 131072 + b.high.value,
        low: a.low.value * 131072 + b.low.value,
    }
}

// Stores the edges from pair i to its then-pair and to its else-pair.
fn put_edges(sheet: &mut [u8], p: usize, i: usize, high: usize, low: usize)
    requires { (32 * p ≤ length sheet.old) × (i < p) × (high < p) × (low < p) }
    ensures { (length sheet.new ≡ length sheet.old)
        × EdgesPut (word_at sheet.old) (word_at sheet.new) p i high low }
{
    words::put_word(sheet, p + i, (2 * high) as u64);
    words::put_word(sheet, 3 * p + i, (2 * low) as u64);
}

// Finds a pair, or inserts it with all that it leads to: its index, and how many pairs there are then; `None` if there is no room.
fn visit(
    table1: &[u8],
    table2: &[u8],
    sheet: &mut [u8],
    p: usize,
    count: usize,
    pair: u64,
) -> Option<(usize, usize)>
    requires { (0 < p) × (32 * p ≤ length sheet.old) × Keys (word_at sheet.old) p count × PairWithin table1.now table2.now pair }
    ensures { (length sheet.new ≡ length sheet.old)
        × Arrives (Visited table1.now table2.now (word_at sheet.old) (word_at sheet.new) p count pair)
        (Overfull (word_at table1.now) (word_at table2.now) (word_at sheet.old) p count pair) result }
{
    let slot = match keys::search(sheet, p, count, pair) {
        Ok(index) => return Some((index, count)),
        Err(slot) => slot,
    };
    if count == p {
        return None;
    }
    keys::insert_at(sheet, p, count, pair, slot);
    let next = count + 1;
    let h = pair_height(table1, table2, pair);
    if h == 0 {
        return Some((count, next));
    }
    let sides = sides_of(table1, table2, pair, h);
    let (high, more) = visit(table1, table2, sheet, p, next, sides.high)?;
    let (low, total) = visit(table1, table2, sheet, p, more, sides.low)?;
    put_edges(sheet, p, count, high, low);
    Some((count, total))
}

// Finds the pairs that the root edges lead to, each once, stores what they lead to, and answers how many there are; `None` if there is no room for them. Both tables have n settings, and a root's node is its table's last.
pub fn explore(
    table1: &[u8],
    table2: &[u8],
    sheet: &mut [u8],
    p: usize,
    n: u64,
    root1: Edge,
    root2: Edge,
) -> Option<usize>
    requires { HasDiagram table1.now n (root1.value / 2) × HasDiagram table2.now n (root2.value / 2) × (32 * p ≤ length sheet.old) }
    ensures { (length sheet.new ≡ length sheet.old)
        × Outcome (λ count. AllPairs table1.now table2.now n root1.value root2.value (word_at sheet.new) p count)
        (p < pair_count (word_at table1.now) (word_at table2.now) n root1.value root2.value) result }
{
    if p == 0 {
        return None;
    }
    keys::clear(sheet, p);
    let root = root1.value * 131072 + root2.value;
    let (_, count) = visit(table1, table2, sheet, p, 0, root)?;
    Some(count)
}
