// The setups that differ from another one in one setting.
#![tactic(auto)]

ghost use Rattle.std.specs.Prelude.{◌≡◌, false, ◌/◌, ◌<◌, ◌^◌, IfSome};
ghost use Rattle.words.specs.Words.{word_at};
ghost use Rattle.diagram.specs.Format.{height};
ghost use Rattle.diagram.specs.Meaning.{under};
ghost use Rattle.walking.specs.Inner.{LiesIn};
ghost use Rattle.distances.specs.Inner.{Nearest};

use diagram::{Edge, Setup};

// The nearest setup that edge e permits, if it differs from x, which e does not permit, in one setting; otherwise `None`.
// Only the settings of the nodes on the way of x matter. To turn off one that is on gives a smaller setup the earlier it comes; to turn on one that is off, the later.
pub fn beside(table: &[u8], e: Edge, x: Setup) -> Option<Setup>
    requires { LiesIn table.now e.value × (x.0 < 2 ^ 63) × (under (word_at table.now) e.value x.0 ≡ false) }
    ensures { IfSome result (λ y. Nearest (under (word_at table.now) e.value) (height (word_at table.now) (e.value / 2)) x.0 y.0) }
{
    let mut edge = e;
    let mut best = None;
    while 0 < edge.node().0 {
        let fork = walking::fork_at(table, edge);
        let on = distances::setting(x, fork.height);
        if walking::permitted_under(table, fork.sides.at(!on), x) {
            let y = distances::set_setting(x, fork.height, !on);
            if on {
                return Some(y);
            }
            best = Some(y);
        }
        edge = fork.sides.at(on);
    }
    best
}
