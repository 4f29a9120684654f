// The pass over all records: rules 4 to 8. The nodes that a record names are marked on the way, for rule 9.
ghost use Rattle.std.specs.Prelude.{◌≡◌, true, ◌+◌, ◌*◌, ◌/◌, ◌≤◌, ◌<◌, length, set};
ghost use Rattle.words.specs.Words.{word_at};
ghost use Rattle.diagram.specs.Answer.{pass};
ghost use Rattle.diagram.specs.Rules.{check_records};
ghost use Rattle.rules.specs.Refusals.{verdict_as};
ghost use Rattle.faults.specs.Inner.{previous};
ghost use Rattle.records.specs.Inner.{InLevel, PassFrom, Marked};

use diagram::{Edge, Node, Record};
use rules::Refusal;

// The record before record k, or 0.
fn word_before(table: &[u8], k: usize) -> u64
    requires { 8 * k + 8 ≤ length table.now }
    ensures { result ≡ previous (word_at table.now) k }
{
    if 1 < k {
        words::word_at(table, k - 1)
    } else {
        0
    }
}

// Whether a record is above `before` and below `limit`, its else-edge below `low` and its then-edge plain, and they differ.
fn in_level(word: u64, before: u64, limit: u64, low: u64) -> bool
    ensures { result ≡ true → InLevel word before limit low }
{
    let record = Record::from(word);
    if word <= before {
        return false;
    }
    if limit <= word {
        return false;
    }
    if low <= record.low.value {
        return false;
    }
    if record.high.flagged() {
        return false;
    }
    record.high != record.low
}

// Marks the nodes that a record of these fields names.
fn mark_named(marks: &mut [u8], fields: Record)
    requires { (fields.high.value / 2 < length marks.old) × (fields.low.value / 2 < length marks.old) }
    ensures { marks.new ≡ set (set marks.old (fields.high.value / 2) 1) (fields.low.value / 2) 1 }
{
    marks[fields.high.node().0] = 1;
    marks[fields.low.node().0] = 1;
}

// A record from k on up to which all pass if those up to k do; what they name is marked. If k is the first of its height, the nodes below k are the lower ones: no child's height is read.
fn skip_level(table: &[u8], marks: &mut [u8], nodes: usize, k: usize) -> usize
    requires { (0 < k) × (k ≤ nodes) × (nodes ≤ 65535) × (8 * nodes + 8 ≤ length table.now) × (nodes < length marks.old) × Marked marks.old k (word_at table.now) }
    ensures { (k ≤ result) × (result ≤ nodes) × PassFrom (word_at table.now) k result
        × (length marks.new ≡ length marks.old) × Marked marks.new result (word_at table.now) }
{
    let h = diagram::height_at(table, Node(k));
    if diagram::height_at(table, Node(k - 1)) == h {
        return k;
    }
    let first = Edge::new(Node(k), false);
    let low = first.value;
    let end = Record {
        height: h,
        high: first,
        low: Edge::ALWAYS,
    };
    let limit = end.word();
    let mut before = words::word_at(table, k);
    for at in k..nodes {
        let word = words::word_at(table, at + 1);
        if !in_level(word, before, limit, low) {
            return at;
        }
        mark_named(marks, Record::from(word));
        before = word;
    }
    nodes
}

// Rules 4 to 8, of records 1 to N upward. Where they pass, the nodes that they name are marked, in marks that were clear.
pub fn check_records(table: &[u8], marks: &mut [u8], n: u64, nodes: usize) -> Result<(), Refusal>
    requires { (8 * nodes + 8 ≤ length table.now) × (nodes ≤ 65535) × (nodes < length marks.old) × Marked marks.old 0 (word_at table.now) }
    ensures { (verdict_as result ≡ check_records (word_at table.now) n nodes)
        × (length marks.new ≡ length marks.old) × (verdict_as result ≡ pass → Marked marks.new nodes (word_at table.now)) }
{
    // (No `for`: a step is not one, but a level.)
    let mut k = 0;
    while k < nodes {
        k += 1;
        let before = word_before(table, k);
        let word = words::word_at(table, k);
        faults::check_record(table, n, Node(k), word, before)?;
        mark_named(marks, Record::from(word));
        k = skip_level(table, marks, nodes, k);
    }
    Ok(())
}
