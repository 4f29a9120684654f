// The nearest setup under an edge, by distances in the sheet. Byte e is for edge e: in how many settings of its node the nearest setup that e permits differs from setup x; 64 for `never`, which permits none.
// A free setting is kept, so a distance is the same at every height above its node.
#![tactic(auto)]

ghost use Rattle.std.specs.Prelude.{◌≡◌, ◌+◌, ◌-◌, ◌/◌, ◌≤◌, ◌<◌, set, get_or, length};
ghost use Rattle.words.specs.Words.{word_at};
ghost use Rattle.diagram.specs.Format.{height};
ghost use Rattle.diagram.specs.Meaning.{under};
ghost use Rattle.diagram.specs.Count.{indicator};
ghost use Rattle.distances.specs.Inner.{Nearest};
ghost use Rattle.nearing.specs.Inner.{lesser, HasBytes, Next, Fillable, Filled, Opens};

use diagram::{Cofactors, Edge, Node, Setup};

// What it costs to have a setting off, or on: the distance under that side, and 1 if the setting has to change for it.
#[derive(Clone, Copy)]
struct Costs {
    off: u8,
    on: u8,
}

// The costs by the two sides of an edge, by whether the setting was on. (By 1 less: `u8::from(!was)` takes an instruction a node more.)
fn costs_of(sheet: &[u8], sides: Cofactors, was: bool) -> Costs
    requires { HasBytes sheet.now sides.high.value sides.low.value }
    ensures { (result.off ≡ get_or sheet.now sides.low.value 0 + indicator was)
        × (result.on ≡ get_or sheet.now sides.high.value 0 + (1 - indicator was)) }
{
    let low = sides.low.value as usize;
    let high = sides.high.value as usize;
    Costs {
        off: sheet[low] + u8::from(was),
        on: sheet[high] + (1 - u8::from(was)),
    }
}

// Enters the distance under edge e, from those under its sides.
fn enter_edge(sheet: &mut [u8], e: Edge, sides: Cofactors, was: bool)
    requires { HasBytes sheet.old sides.high.value sides.low.value × (e.value < length sheet.old) }
    ensures { sheet.new ≡ set sheet.old e.value
        (lesser (get_or sheet.old sides.low.value 0 + indicator was) (get_or sheet.old sides.high.value 0 + (1 - indicator was))) }
{
    let costs = costs_of(sheet, sides, was);
    sheet[e.value as usize] = costs.off.min(costs.on);
}

// Enters the distances under the plain and the flagged edge to node k.
fn enter_node(table: &[u8], sheet: &mut [u8], k: Node, x: Setup)
    requires { Next table.now sheet.old x.0 k.0 }
    ensures { Filled table.now sheet.new x.0 k.0 }
{
    let record = diagram::record_at(table, k);
    let was = distances::setting(x, record.height);
    let plain = Edge::new(k, false);
    enter_edge(sheet, plain, record.cofactors(plain), was);
    let flagged = Edge::new(k, true);
    enter_edge(sheet, flagged, record.cofactors(flagged), was);
}

// Enters the distances under the edges to nodes 0 to N.
pub fn fill(table: &[u8], sheet: &mut [u8], n: u64, nodes: usize, x: Setup)
    requires { Fillable table.now sheet.old n nodes }
    ensures { Filled table.now sheet.new x.0 nodes }
{
    sheet[0] = 0;
    sheet[1] = 64;
    for k in 0..nodes {
        enter_node(table, sheet, Node(k + 1), x);
    }
}

// The setup nearest to x that edge e permits, the smallest of several. It goes down by the cheaper side, with the setting off if both cost the same.
pub fn nearest(table: &[u8], sheet: &[u8], e: Edge, x: Setup) -> Setup
    requires { Opens table.now sheet.now e.value x.0 }
    ensures { Nearest (under (word_at table.now) e.value) (height (word_at table.now) (e.value / 2)) x.0 result.0 }
{
    let mut edge = e;
    let mut y = x;
    while 0 < edge.node().0 {
        let fork = walking::fork_at(table, edge);
        let costs = costs_of(sheet, fork.sides, distances::setting(y, fork.height));
        let on = costs.on < costs.off;
        y = distances::set_setting(y, fork.height, on);
        edge = fork.sides.at(on);
    }
    y
}
