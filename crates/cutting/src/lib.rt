// A table and the nodes that cuts add behind it.
#![tactic(auto)]

ghost use Rattle.std.specs.Prelude.{◌≡◌, true, false, cond, ◌+◌, ◌-◌, ◌*◌, ◌/◌, ◌≤◌, ◌<◌, ◌^◌, eqb, length};
ghost use Rattle.std.specs.Bool.{beq};
ghost use Rattle.words.specs.Words.{word_at};
ghost use Rattle.diagram.specs.Meaning.{bit};
ghost use Rattle.diagram.specs.Ordered.{Ordered};
ghost use Rattle.diagram.specs.Reading.{cofactor, record_of};
ghost use Rattle.cutting.specs.Cut.{cut_edge, Cut, IsStep};

use diagram::{Cofactors, Edge, Node, Record, Setup};

// Whether setup x has the setting of height h.
fn has_setting(x: Setup, h: u64) -> bool
    requires { (0 < h) × (h ≤ 63) }
    ensures { result ≡ bit h x.0 }
{
    (x.0 >> (h - 1)) % 2 == 1
}

// The edge along the bound from a cut's node of height h: to the node below it, or at the last setting to what the bound leads to.
fn inner_edge(base: usize, h: u64, next: Edge) -> Edge
    requires { (base < 2 ^ 27) × (0 < h) × (h ≤ 63) }
    ensures { result.value ≡ cond (eqb (h - 1) 0) next.value (2 * (base + (h - 1))) }
{
    if h == 1 {
        next
    } else {
        Edge::new(Node(base + h as usize - 1), false)
    }
}

// The edge that leaves the bound: nothing is left there, or all of e.
fn outer_edge(on: bool, lower: bool, e: Edge) -> Edge
    ensures { result.value ≡ cond (beq on lower) 1 e.value }
{
    if on == lower { Edge::NEVER } else { e }
}

// The word of a cut's node, whose then-edge runs along the bound if the bound has the setting.
fn cut_word(height: u64, on: bool, inner: Edge, outer: Edge) -> u64
    requires { (height ≤ 63) × (inner.value < 2 ^ 29) × (outer.value < 2 ^ 29) }
    ensures { result ≡ cond on (record_of height inner.value outer.value) (record_of height outer.value inner.value) }
{
    let (high, low) = if on { (inner, outer) } else { (outer, inner) };
    Record { height, high, low }.word()
}

// The word of a cut's node, and the edge by which the bound goes on.
#[derive(Clone, Copy, Debug, PartialEq, Eq)]
struct Step {
    word: u64,
    next: Edge,
}

// A table of n settings, and behind its nodes those of two cuts, n each: `more` has the word of node nodes + i at place i.
#[derive(Debug, Drop)]
pub struct Extended<'a> {
    pub table: &'a [u8],
    pub more: [u64; 128],
    pub n: usize,
    pub nodes: usize,
    pub ghost table_long: { 8 * nodes + 8 ≤ length table.now },
    pub ghost few_settings: { n ≤ 63 },
    pub ghost few_nodes: { nodes ≤ 65535 },
}

impl Extended<'_> {
    ghost use Rattle.cutting.specs.Behind.{words_of, last_of, SameTable};

    // The last node of the second cut.
    pub fn last(&self) -> usize
        ensures { result ≡ last_of self.now }
    {
        self.nodes + self.n + self.n
    }

    // Word v of the table, or of the nodes behind it.
    pub fn word_in(&self, v: Node) -> u64
        requires { v.0 < self.now.nodes + 128 }
        ensures { result ≡ words_of self.now v.0 }
    {
        if v.0 <= self.nodes {
            words::word_at(self.table, v.0)
        } else {
            self.more[v.0 - self.nodes]
        }
    }

    // The cofactors of edge e by the setting of height h.
    fn cofactors_in(&self, e: Edge, h: u64) -> Cofactors
        requires { (e.value / 2 < self.now.nodes + 128) × (0 < h) }
        ensures { (result.high.value ≡ cofactor (words_of self.now) h true e.value) × (result.low.value ≡ cofactor (words_of self.now) h false e.value) }
    {
        let node = e.node();
        if node.0 == 0 {
            return Cofactors { high: e, low: e };
        }
        let record = Record::from(self.word_in(node));
        if record.height < h {
            return Cofactors { high: e, low: e };
        }
        record.cofactors(e)
    }

    // The cut's node of height h below edge e, where the bound leads to e.
    fn cut_step(&self, base: usize, e: Edge, h: u64, bound: Setup, lower: bool) -> Step
        requires { (e.value / 2 < self.now.nodes + 128) × (base < 2 ^ 27) × (0 < h) × (h ≤ 63) }
        ensures { IsStep (words_of self.now) base bound.0 lower h e.value result.word result.next.value }
    {
        let on = has_setting(bound, h);
        let sides = self.cofactors_in(e, h);
        let next = sides.at(on);
        let outer = outer_edge(on, lower, sides.at(!on));
        let word = cut_word(h, on, inner_edge(base, h, next), outer);
        Step { word, next }
    }

    // Adds the nodes of a cut at a bound, `skip` nodes behind the table's; the edge to what is left. `lower` keeps the setups not below the bound, or else those not above it.
    pub fn add_cut(&mut self, skip: usize, root: Edge, bound: Setup, lower: bool) -> Edge
        requires { Ordered (words_of self.old) self.old.n (self.old.nodes + skip) × (root.value / 2 ≤ self.old.nodes + skip) × (skip ≤ 63) }
        ensures { Cut (words_of self.old) self.old.n (self.old.nodes + skip) bound.0 root.value lower (words_of self.new)
            × (result.value ≡ cut_edge (words_of self.old) (self.old.nodes + skip) self.old.n bound.0 root.value self.old.n)
            × SameTable self.old self.new }
    {
        let base = self.nodes + skip;
        let mut e = root;
        for h in (1..=self.n).rev() {
            let step = self.cut_step(base, e, h as u64, bound, lower);
            self.more[skip + h] = step.word;
            e = step.next;
        }
        if self.n == 0 {
            root
        } else {
            Edge::new(Node(base + self.n), false)
        }
    }
}
