// The way of a setup through the diagram, to where nothing is permitted any more, and the smallest setup from there on. In a reduced diagram that is exactly where the edge is `never`.
ghost use Rattle.std.specs.Prelude.{◌≡◌, ◌≢◌, ◌/◌, ◌≤◌, ◌<◌, ◌^◌};
ghost use Rattle.std.proofs.Math.Option.{some};
ghost use Rattle.words.specs.Words.{word_at};
ghost use Rattle.diagram.specs.Format.{height};
ghost use Rattle.diagram.specs.Meaning.{under};
ghost use Rattle.diagram.specs.Count.{smallest};
ghost use Rattle.walking.specs.Inner.{Lies, LiesIn};
ghost use Rattle.exclusion.specs.Inner.{Follows, turned_at};

use diagram::{Edge, Setup};

// A setup's way: the edge reached, the height of the last node passed (one above the settings, where none was), and the edge that was not taken there.
#[derive(Clone, Copy, Debug, PartialEq, Eq)]
pub struct Way {
    pub edge: Edge,
    pub height: u64,
    pub other: Edge,
}

// Follows setup x of n settings from edge e to the sink.
pub fn follow(table: &[u8], n: u64, e: Edge, x: Setup) -> Way
    requires { Lies table.now n e.value }
    ensures { Follows table.now n e.value x.0 result.edge.value result.height result.other.value × (result.edge.value / 2 ≡ 0) }
{
    let mut way = Way {
        edge: e,
        height: n + 1,
        other: Edge::NEVER,
    };
    while 0 < way.edge.node().0 {
        let fork = walking::fork_at(table, way.edge);
        let on = (x.0 >> (fork.height - 1)) % 2 == 1;
        way = Way {
            edge: fork.sides.at(on),
            height: fork.height,
            other: fork.sides.at(!on),
        };
    }
    way
}

// Setup x with its setting of height h turned over, and all later ones off.
pub fn turned(x: Setup, h: u64) -> Setup
    requires { (0 < h) × (h ≤ 63) × (x.0 < 2 ^ 63) }
    ensures { result.0 ≡ turned_at h x.0 }
{
    let digits = x.0 >> (h - 1);
    if digits % 2 == 1 {
        return Setup((digits - 1) << (h - 1));
    }
    Setup((digits + 1) << (h - 1))
}

// The smallest setup that edge e permits: each setting off, unless nothing is permitted so.
pub fn smallest_under(table: &[u8], e: Edge) -> Setup
    requires { LiesIn table.now e.value × (e.value ≢ 1) }
    ensures { smallest (under (word_at table.now) e.value) (2 ^ height (word_at table.now) (e.value / 2)) ≡ some result.0 }
{
    let mut edge = e;
    let mut x = Setup(0);
    while 0 < edge.node().0 {
        let fork = walking::fork_at(table, edge);
        let on = fork.sides.low.value == 1;
        if on {
            x = turned(x, fork.height);
        }
        edge = fork.sides.at(on);
    }
    x
}
