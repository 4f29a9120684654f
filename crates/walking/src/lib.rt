// The way of a setup through the diagram, and the two sides of an edge at its node's setting.
#![tactic(auto)]

ghost use Rattle.std.specs.Prelude.{◌≡◌, not, ◌/◌, ◌<◌};
ghost use Rattle.words.specs.Words.{word_at};
ghost use Rattle.diagram.specs.Meaning.{branch, plain, under};
ghost use Rattle.diagram.specs.Reading.{Within};
ghost use Rattle.walking.specs.Inner.{LiesIn, ForksIn};

use diagram::{Cofactors, Edge, Node, Setup};

// The edge by which setup x leaves node k.
fn branch_of(table: &[u8], k: Node, x: Setup) -> Edge
    requires { (0 < k.0) × Within table.now k.0 }
    ensures { result.value ≡ branch (word_at table.now) k.0 x.0 }
{
    let record = diagram::record_at(table, k);
    if (x.0 >> (record.height - 1)) % 2 == 1 {
        return record.high;
    }
    record.low
}

// Whether setup x is permitted under a plain edge to node k.
// (This function and the next are twins that call each other, not one: a rule of the project, the form that the order names; docs/DECISIONS.md 6.)
#[cycle(permitted_flagged_permitted_plain)]
fn permitted_plain(table: &[u8], k: Node, x: Setup) -> bool
    requires { Within table.now k.0 }
    ensures { result ≡ plain (word_at table.now) k.0 x.0 }
{
    if k.0 == 0 {
        return true;
    }
    let e = branch_of(table, k, x);
    if e.flagged() {
        permitted_flagged(table, e.node(), x)
    } else {
        permitted_plain(table, e.node(), x)
    }
}

// Whether setup x is permitted under a flagged edge to node k.
#[cycle(permitted_flagged_permitted_plain)]
fn permitted_flagged(table: &[u8], k: Node, x: Setup) -> bool
    requires { Within table.now k.0 }
    ensures { result ≡ not (plain (word_at table.now) k.0 x.0) }
{
    if k.0 == 0 {
        return false;
    }
    let e = branch_of(table, k, x);
    if e.flagged() {
        permitted_plain(table, e.node(), x)
    } else {
        permitted_flagged(table, e.node(), x)
    }
}

// Whether setup x is permitted under edge e.
pub fn permitted_under(table: &[u8], e: Edge, x: Setup) -> bool
    requires { Within table.now (e.value / 2) }
    ensures { result ≡ under (word_at table.now) e.value x.0 }
{
    if e.flagged() {
        permitted_flagged(table, e.node(), x)
    } else {
        permitted_plain(table, e.node(), x)
    }
}

// The node that an edge leads to: its height, and the edge's two sides by its setting.
#[derive(Clone, Copy, Debug, PartialEq, Eq)]
pub struct Fork {
    pub height: u64,
    pub sides: Cofactors,
}

// ... of edge e in a reduced diagram.
pub fn fork_at(table: &[u8], e: Edge) -> Fork
    requires { LiesIn table.now e.value × (0 < e.value / 2) }
    ensures { ForksIn table.now e.value result.height result.sides.high.value result.sides.low.value }
{
    let record = diagram::record_at(table, e.node());
    let sides = record.cofactors(e);
    Fork {
        height: record.height,
        sides,
    }
}
