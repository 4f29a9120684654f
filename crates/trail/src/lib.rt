// The way down to a rank, from where it leaves the way down to the rank before it.
#![tactic(auto)]

ghost use Rattle.std.specs.Prelude.{◌≡◌, ℕ, ◌+◌, ◌-◌, ◌≤◌, ◌<◌, ◌^◌, get_or, set};
ghost use Rattle.trail.specs.Inner.{AtRoot, Ends, Followed, FollowsOn, FollowsTo, Resumed, ResumesTo};

use descent::Way;
use diagram::{Edge, Rank, Setup};

// The setup found last, and what is kept of the way to it, for each number of settings left: the edge reached (its value), and the rank at which the setups that begin so end.
// What holds of them (`Trail`) is a clause and no invariant of the struct: it speaks of the table, the sheet, the root edge and the rank asked for, which change or are lent by the caller.
// (`last` stands first: behind the arrays, or outside the struct, a setting takes two instructions more in each loop, up to 15 % of a list, which misses its bar.)
#[derive(Debug, Drop)]
pub struct Path {
    pub last: Setup,
    pub edges: [u64; 64],
    pub ends: [u64; 64],
}

impl Path {
    // Before the first rank: only the root is reached, n settings are left, and its setups end at `count`.
    pub fn at(n: u64, root: Edge, count: u64) -> Path
        requires { n < 64 }
        ensures { AtRoot n root.value count result.edges result.ends result.last.0 }
    {
        let mut path = Path {
            last: Setup(0),
            edges: [0; 64],
            ends: [0; 64],
        };
        path.edges[n as usize] = root.value;
        path.ends[n as usize] = count;
        path
    }

    // The settings left where rank r leaves the path.
    // (A loop by hand: `for h in 0..64` takes up to 1.4 % more instructions a setup, and the calls of `position` are not direct, so `.ci/undivided` could not follow them.)
    fn leave(&self, r: Rank) -> u64
        requires { Ends self.now.ends r.0 }
        ensures { (r.0 < get_or self.now.ends result 0) × ((k : ℕ) → r.0 < get_or self.now.ends k 0 → result ≤ k) }
    {
        let mut h: usize = 0;
        while self.ends[h] <= r.0 {
            h += 1;
        }
        h as u64
    }

    // Keeps the way to rank r, h settings being left.
    fn keep(&mut self, h: u64, way: Way, r: Rank)
        requires { (h < 64) × (way.left ≤ r.0) × (r.0 + way.count < 2 ^ 64) }
        ensures { (self.new.edges ≡ set self.old.edges h way.edge.value)
            × (self.new.ends ≡ set self.old.ends h (r.0 - way.left + way.count)) }
    {
        let i = h as usize;
        self.edges[i] = way.edge.value;
        self.ends[i] = r.0 - way.left + way.count;
    }

    // Chooses the settings above the node reached, at which no node on the way looks. (In a loop of its own, which tests the height each time: so the compiler drops what
    // `advance` does at a node. A `for` over a range would have to know that the height stays, which `advance` does not say.)
    fn cross(&mut self, table: &[u8], sheet: &[u8], start: Way, from: u64, r: Rank) -> Way
        requires { Followed table.now sheet.now r.0 self.old.edges self.old.ends from start }
        ensures { FollowsOn table.now sheet.now r.0 self.old.edges self.old.ends from start
            self.new.edges self.new.ends result.height result × (result.height ≤ from) }
    {
        let mut way = start;
        let mut h = from;
        while way.height < h {
            way = descent::advance(table, sheet, way, h);
            h -= 1;
            self.keep(h, way, r);
        }
        way
    }

    // Chooses the settings left on the way to rank r.
    fn follow(&mut self, table: &[u8], sheet: &[u8], start: Way, from: u64, r: Rank) -> Setup
        requires { Followed table.now sheet.now r.0 self.old.edges self.old.ends from start }
        ensures { FollowsTo table.now sheet.now r.0 self.old.edges self.old.ends from start
            self.new.edges self.new.ends result.0 }
    {
        let mut way = self.cross(table, sheet, start, from, r);
        while 0 < way.height {
            let h = way.height;
            way = descent::advance(table, sheet, way, h);
            self.keep(h - 1, way, r);
            way = self.cross(table, sheet, way, h - 1, r);
        }
        Setup(way.digits)
    }

    // The setup of rank r, which is not below the rank before it.
    pub fn next_setup(&mut self, table: &[u8], sheet: &[u8], r: Rank) -> Setup
        requires { Resumed table.now sheet.now r.0 self.old.edges self.old.ends self.old.last.0 }
        ensures { ResumesTo table.now sheet.now r.0 self.old.edges self.old.ends self.old.last.0
            self.new.edges self.new.ends result.0 × (self.new.last.0 ≡ result.0) }
    {
        let h = self.leave(r);
        let i = h as usize;
        let edge = Edge {
            value: self.edges[i],
        };
        let below = descent::look_below(table, sheet, edge, h);
        let way = Way {
            edge,
            height: below.height,
            count: below.count,
            left: below.count - (self.ends[i] - r.0),
            digits: self.last.0 >> h,
        };
        let x = self.follow(table, sheet, way, h, r);
        self.last = x;
        x
    }
}
