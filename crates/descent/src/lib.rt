// The way down to the setup of a rank: one setting at a time, by comparison and subtraction.
// What holds of a way (`Stands`) is a clause and no invariant of `Way`: it speaks of the table, the sheet and the settings left, which a way would have to carry for that alone.
#![tactic(auto)]

ghost use Rattle.std.specs.Prelude.{◌≡◌, true, false, ◌+◌, ◌*◌, ◌/◌, ◌<◌, ◌^◌};
ghost use Rattle.std.proofs.Math.Option.{some};
ghost use Rattle.words.specs.Words.{word_at};
ghost use Rattle.diagram.specs.Format.{height};
ghost use Rattle.diagram.specs.Meaning.{under};
ghost use Rattle.diagram.specs.Count.{count_below, select};
ghost use Rattle.counting.specs.Inner.{Opens};
ghost use Rattle.descent.specs.Inner.{IsBelow, IsChoice, Stands, Crossed, Advances};

use diagram::{Edge, Rank, Setup};

// What lies below an edge: its node's height, and how many setups of the settings left it permits.
#[derive(Clone, Copy, Debug, PartialEq, Eq)]
pub struct Below {
    pub height: u64,
    pub count: u64,
}

// A way down: the edge reached and what lies below it, the number left among these setups, and the settings chosen so far, as digits.
#[derive(Clone, Copy, Debug, PartialEq, Eq)]
pub struct Way {
    pub edge: Edge,
    pub height: u64,
    pub count: u64,
    pub left: u64,
    pub digits: u64,
}

// The choice of a setting: whether it is on, and the number and the digits that it leads to.
#[derive(Clone, Copy)]
struct Choice {
    on: bool,
    left: u64,
    digits: u64,
}

// What lies below edge e, where h settings are left.
pub fn look_below(table: &[u8], sheet: &[u8], e: Edge, h: u64) -> Below
    requires { Opens table.now sheet.now e.value h }
    ensures { IsBelow (word_at table.now) e.value h result.height result.count }
{
    let height = diagram::height_at(table, e.node());
    let count = counting::count_under(sheet, e, h);
    Below { height, count }
}

// Chooses a setting where the first `off` of the setups have it off. (By an early return: as one `if .. else ..` it costs `descend` a tenth more instructions.)
fn choose(left: u64, digits: u64, off: u64) -> Choice
    requires { digits < 2 ^ 63 }
    ensures { IsChoice off left digits result.on result.left result.digits }
{
    if left < off {
        return Choice {
            on: false,
            left,
            digits: digits * 2,
        };
    }
    Choice {
        on: true,
        left: left - off,
        digits: digits * 2 + 1,
    }
}

// Chooses a setting that no node on the way looks at: half of the setups have it off.
fn cross(way: Way) -> Way
    requires { way.digits < 2 ^ 63 }
    ensures { Crossed way result }
{
    let half = way.count / 2;
    let choice = choose(way.left, way.digits, half);
    Way {
        count: half,
        left: choice.left,
        digits: choice.digits,
        ..way
    }
}

// Chooses the setting of the node reached.
fn branch(table: &[u8], sheet: &[u8], way: Way) -> Way
    requires { Stands table.now sheet.now way.height way × (0 < way.height) × (way.digits < 2 ^ 63) }
    ensures { Advances table.now sheet.now way.height way result }
{
    let e = way.edge;
    let sides = diagram::record_at(table, e.node()).cofactors(e);
    let low = look_below(table, sheet, sides.low, way.height - 1);
    let rest = way.count - low.count;
    let choice = choose(way.left, way.digits, low.count);
    if choice.on {
        Way {
            edge: sides.high,
            height: diagram::height_at(table, sides.high.node()),
            count: rest,
            left: choice.left,
            digits: choice.digits,
        }
    } else {
        Way {
            edge: sides.low,
            height: low.height,
            count: low.count,
            left: choice.left,
            digits: choice.digits,
        }
    }
}

// Chooses the setting of height h: whatever rank was asked for, what holds of the number left (`IsLeft`) holds with a setting more.
pub fn advance(table: &[u8], sheet: &[u8], way: Way, h: u64) -> Way
    requires { Stands table.now sheet.now h way × (0 < h) × (way.digits < 2 ^ 63) }
    ensures { Advances table.now sheet.now h way result }
{
    if way.height < h {
        cross(way)
    } else {
        branch(table, sheet, way)
    }
}

// The setup of n settings that edge root permits with exactly r smaller ones.
pub fn descend(table: &[u8], sheet: &[u8], n: u64, root: Edge, r: Rank) -> Setup
    requires { Opens table.now sheet.now root.value n
        × (r.0 < count_below (under (word_at table.now) root.value) (2 ^ n)) }
    ensures { select (under (word_at table.now) root.value) (2 ^ n) r.0 ≡ some result.0 }
{
    let below = look_below(table, sheet, root, n);
    let mut way = Way {
        edge: root,
        height: below.height,
        count: below.count,
        left: r.0,
        digits: 0,
    };
    for h in (1..=n).rev() {
        way = advance(table, sheet, way, h);
    }
    Setup(way.digits)
}
