// Nodes numbered anew by a map: what an edge and a record become, and the place that a node gets.
#![tactic(auto)]

ghost use Rattle.std.specs.Prelude.{◌≡◌, ◌+◌, ◌-◌, ◌*◌, ◌/◌, ◌≤◌, ◌<◌, length};
ghost use Rattle.std.specs.Int.{from_bool};
ghost use Rattle.words.specs.Words.{word_at};
ghost use Rattle.diagram.specs.Format.{middle_field, low_field};
ghost use Rattle.numbering.specs.Renewal.{image, normal, renew, Renewable, StaysPlain, Readable, IsKey, Counted, Gave};

use diagram::{Edge, Node, Record};

// What a node becomes: its new record, 0 if it is left out, and whether a flag was taken out of it.
// (No Option: words are compared, and 0 stands below all records.)
#[derive(Clone, Copy, Debug, PartialEq, Eq)]
pub struct Key {
    pub word: u64,
    pub flag: bool,
}

// How many new records there are, and the last of them.
#[derive(Clone, Copy, Debug, PartialEq, Eq)]
pub struct Tally {
    pub count: u64,
    pub last: u64,
}

impl Tally {
    // The tally after record `word`: it counts, unless it is the last one again.
    fn after(self, word: u64) -> Self
        requires { self.count < 268435454 }
        ensures { Counted word self.count self.last result.count result.last }
    {
        if word == self.last {
            self
        } else {
            Tally {
                count: self.count + 1,
                last: word,
            }
        }
    }
}

// The edge that takes the place of a plain edge to node v.
pub fn edge_to(map: &[u8], v: Node) -> Edge
    requires { (8 * v.0 + 8 ≤ length map.now) × (0 < word_at map.now v.0) }
    ensures { result.value ≡ word_at map.now v.0 - 1 }
{
    Edge {
        value: words::word_at(map, v.0) - 1,
    }
}

// What edge e becomes.
pub fn image_of(map: &[u8], e: Edge) -> Edge
    requires { (8 * (e.value / 2) + 8 ≤ length map.now) × (0 < word_at map.now (e.value / 2)) }
    ensures { result.value ≡ image (word_at map.now) e.value }
{
    edge_to(map, e.node()).turned_by(e)
}

// What record `word` becomes, if its then-edge stays plain: no flag is taken out. (Part-write's loops want it without the flags of key_of: docs/DECISIONS.md 35.)
pub fn renew_plain(map: &[u8], word: u64) -> u64
    requires { Renewable map.now word × StaysPlain (word_at map.now) word }
    ensures { result ≡ renew (word_at map.now) word }
{
    let Record { height, high, low } = Record::from(word);
    Record {
        height,
        high: edge_to(map, high.node()),
        low: image_of(map, low),
    }
    .word()
}

// The record of a height and edges `high` and `low`, with the flag of `high` taken out of both.
pub fn normal_word(height: u64, high: Edge, low: Edge) -> u64
    requires { (height ≤ 63) × (high.value < 536870912) × (low.value < 536870912) }
    ensures { result ≡ normal height high.value low.value }
{
    let plain = Edge {
        value: 2 * (high.value / 2),
    };
    Record {
        height,
        high: plain,
        low: low.turned_by(high),
    }
    .word()
}

// What node v, of record `word`, becomes.
pub fn key_of(map: &[u8], v: Node, word: u64) -> Key
    requires { Readable map.now v.0 word }
    ensures { IsKey (word_at map.now) v.0 word result.word (from_bool result.flag) }
{
    if words::word_at(map, v.0) == 0 {
        return Key {
            word: 0,
            flag: false,
        };
    }
    let fields = Record::from(word);
    let high = image_of(map, fields.high);
    let low = image_of(map, fields.low);
    Key {
        word: normal_word(fields.height, high, low),
        flag: high.flagged(),
    }
}

// Gives node v, which becomes `key`, a record of different edges, the record's number: the next one, or the last if the record is the same. (The end of `give`, whose tests a table's nodes do not need.)
pub fn give_number(map: &mut [u8], v: Node, key: Key, tally: Tally) -> Tally
    requires { (8 * v.0 + 8 ≤ length map.old) × (tally.count < 268435454)
        × (key.word ≡ 0 → ⊥) × (middle_field key.word ≡ low_field key.word → ⊥) }
    ensures { Gave map.old map.new v.0 key.word (from_bool key.flag) tally.count tally.last result.count result.last }
{
    let on = tally.after(key.word);
    words::put_word(map, v.0, 1 + 2 * on.count + u64::from(key.flag));
    on
}

// Gives node v, which becomes `key`, its place: none if it is left out, an edge if its edges are equal, or else its record's number.
pub fn give(map: &mut [u8], v: Node, key: Key, tally: Tally) -> Tally
    requires { (8 * v.0 + 8 ≤ length map.old) × (tally.count < 268435454) }
    ensures { Gave map.old map.new v.0 key.word (from_bool key.flag) tally.count tally.last result.count result.last }
{
    if key.word == 0 {
        return tally;
    }
    let Record { high, low, .. } = Record::from(key.word);
    if high == low {
        words::put_word(map, v.0, 1 + high.value + u64::from(key.flag));
        return tally;
    }
    give_number(map, v, key, tally)
}
