// Nodes, edges and setups of a table, and the reading of its header and records.
#![tactic(auto)]

ghost use Rattle.std.specs.Prelude.{◌≡◌, cond, ◌+◌, ◌*◌, ◌/◌, ◌%◌, ◌≤◌, ◌<◌, ◌^◌, eqb, length};
ghost use Rattle.words.specs.Words.{word_at};
ghost use Rattle.diagram.specs.Format.{height};
ghost use Rattle.diagram.specs.Count.{indicator};
ghost use Rattle.diagram.specs.Reading.{HasFields, IsHeader, IsRecord, turn, record_of};

// A node's number. Node 0 is the sink.
#[derive(Clone, Copy, Debug, PartialEq, Eq)]
pub struct Node(pub usize);

// A setup: an assignment of the settings, the first one the most significant bit.
#[derive(Clone, Copy, Debug, PartialEq, Eq)]
pub struct Setup(pub u64);

// How many permitted setups are smaller.
#[derive(Clone, Copy, Debug, PartialEq, Eq)]
pub struct Rank(pub u64);

// An edge to a node, plain or complemented by its flag: 2 × node + flag.
#[derive(Clone, Copy, Debug, PartialEq, Eq)]
pub struct Edge {
    pub value: u64,
}

impl Edge {
    // The plain edge to the sink: every setup is permitted under it.
    pub const ALWAYS: Self = Self { value: 0 };

    // The flagged one: none is.
    pub const NEVER: Self = Self { value: 1 };

    pub fn new(node: Node, flagged: bool) -> Self
        requires { node.0 < 2 ^ 28 }
        ensures { result.value ≡ 2 * node.0 + indicator flagged }
    {
        let plain = 2 * (node.0 as u64);
        if flagged {
            return Edge { value: plain + 1 };
        }
        Edge { value: plain }
    }

    pub fn node(self) -> Node
        ensures { result.0 ≡ self.value / 2 }
    {
        Node((self.value / 2) as usize)
    }

    pub fn flagged(self) -> bool
        ensures { result ≡ eqb (self.value % 2) 1 }
    {
        self.value % 2 == 1
    }

    // The edge with its flag turned over, if edge e is flagged.
    pub fn turned_by(self, e: Edge) -> Self
        ensures { result.value ≡ turn (e.value % 2) self.value }
    {
        if e.flagged() {
            let a = self.value;
            return Edge {
                value: 2 * (a / 2) + (1 - a % 2),
            };
        }
        self
    }
}

// An edge as it goes on where one setting is on (high) or off (low).
#[derive(Clone, Copy, Debug, PartialEq, Eq)]
pub struct Cofactors {
    pub high: Edge,
    pub low: Edge,
}

impl Cofactors {
    pub fn at(self, on: bool) -> Edge
        ensures { result.value ≡ cond on self.high.value self.low.value }
    {
        if on {
            return self.high;
        }
        self.low
    }
}

// Word 0: n settings, N nodes, and the root edge.
#[derive(Clone, Copy, Debug, PartialEq, Eq)]
pub struct Header {
    pub settings: u64,
    pub nodes: usize,
    pub root: Edge,
}

impl Header {
    // The word of these fields.
    pub fn word(self) -> u64
        requires { (self.settings ≤ 63) × (self.nodes < 2 ^ 29) × (self.root.value < 2 ^ 29) }
        ensures { result ≡ record_of self.settings self.nodes self.root.value }
    {
        self.settings * 288230376151711744 + (self.nodes as u64) * 536870912 + self.root.value
    }
}

// Word k: the height of node k, its then-edge (high) and its else-edge (low).
#[derive(Clone, Copy, Debug, PartialEq, Eq)]
pub struct Record {
    pub height: u64,
    pub high: Edge,
    pub low: Edge,
}

impl Record {
    // The word of these fields.
    pub fn word(self) -> u64
        requires { (self.height ≤ 63) × (self.high.value < 2 ^ 29) × (self.low.value < 2 ^ 29) }
        ensures { result ≡ record_of self.height self.high.value self.low.value }
    {
        self.height * 288230376151711744 + self.high.value * 536870912 + self.low.value
    }

    // The cofactors of an edge e to this record's node by the node's own setting: the record's edges, turned over if e is flagged.
    pub fn cofactors(self, e: Edge) -> Cofactors
        ensures { (result.high.value ≡ turn (e.value % 2) self.high.value) × (result.low.value ≡ turn (e.value % 2) self.low.value) }
    {
        Cofactors {
            high: self.high.turned_by(e),
            low: self.low.turned_by(e),
        }
    }
}

// The record that is this word.
impl From<u64> for Record {
    ghost from_gives = { λ word r. HasFields word r.height r.high.value r.low.value };

    fn from(word: u64) -> Self {
        Record {
            height: word / 288230376151711744,
            high: Edge {
                value: word / 536870912 % 536870912,
            },
            low: Edge {
                value: word % 536870912,
            },
        }
    }
}

// The header has the fields of a record: n, N and the root edge.
pub fn header_of(table: &[u8]) -> Header
    requires { 8 ≤ length table.now }
    ensures { IsHeader (word_at table.now) result.settings result.nodes result.root.value }
{
    let fields = Record::from(words::word_at(table, 0));
    let root = fields.low;
    Header {
        settings: fields.height,
        nodes: fields.high.value as usize,
        root,
    }
}

// The edge that is word i: its value is the whole word.
pub fn edge_at(words: &[u8], i: usize) -> Edge
    requires { 8 * i + 8 ≤ length words.now }
    ensures { result.value ≡ word_at words.now i }
{
    Edge {
        value: words::word_at(words, i),
    }
}

pub fn record_at(table: &[u8], k: Node) -> Record
    requires { (0 < k.0) × (8 * k.0 + 8 ≤ length table.now) }
    ensures { IsRecord (word_at table.now) k.0 result.height result.high.value result.low.value }
{
    Record::from(words::word_at(table, k.0))
}

// The height of node k, from the first byte of its record. (The byte is read for the sink too: then there is no jump.)
pub fn height_at(table: &[u8], k: Node) -> u64
    requires { 8 * k.0 + 8 ≤ length table.now }
    ensures { (result ≡ height (word_at table.now) k.0) × (result ≤ 63) }
{
    let i = k.0;
    let h = (table[8 * i] / 4) as u64;
    if i == 0 {
        return 0;
    }
    h
}
