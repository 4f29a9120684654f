// Rules 4 to 8, of one record.
#![tactic(auto)]

ghost use Rattle.std.specs.Prelude.{◌≡◌, ◌||◌, ◌+◌, ◌*◌, ◌≤◌, ◌<◌, eqb, ltb, length};
ghost use Rattle.words.specs.Words.{word_at};
ghost use Rattle.diagram.specs.Format.{height};
ghost use Rattle.diagram.specs.Rules.{misled, check_record};
ghost use Rattle.rules.specs.Refusals.{verdict_as};
ghost use Rattle.faults.specs.Inner.{previous};

use diagram::{Edge, Node, Record};
use rules::Refusal;

// Whether edge e of record k, whose height h is above 0, leads to a node not below k or to one not below h. The sink is below both.
fn is_misled(table: &[u8], k: Node, h: u64, e: Edge) -> bool
    requires { (h ≡ height (word_at table.now) k.0) × (8 * k.0 + 8 ≤ length table.now) }
    ensures { 0 < h → result ≡ misled (word_at table.now) k.0 e.value }
{
    let node = e.node();
    node.0 != 0 && (k.0 <= node.0 || h <= diagram::height_at(table, node))
}

// Whether one of the edges of record k does.
fn has_misled(table: &[u8], k: Node, fields: Record) -> bool
    requires { (fields.height ≡ height (word_at table.now) k.0) × (8 * k.0 + 8 ≤ length table.now) }
    ensures { 0 < fields.height → result ≡ (misled (word_at table.now) k.0 fields.high.value || misled (word_at table.now) k.0 fields.low.value) }
{
    is_misled(table, k, fields.height, fields.high)
        || is_misled(table, k, fields.height, fields.low)
}

// Whether a height is 0 or above n.
pub fn is_unfit(n: u64, h: u64) -> bool
    ensures { result ≡ (eqb h 0 || ltb n h) }
{
    h == 0 || n < h
}

// Rules 4 to 8, of record k, which is `word` and comes after `before`. An edge's fault is named before the order's.
pub fn check_record(table: &[u8], n: u64, k: Node, word: u64, before: u64) -> Result<(), Refusal>
    requires { (0 < k.0) × (8 * k.0 + 8 ≤ length table.now) × (word ≡ word_at table.now k.0) × (before ≡ previous (word_at table.now) k.0) }
    ensures { verdict_as result ≡ check_record (word_at table.now) n k.0 }
{
    let record = Record::from(word);
    let unfit = is_unfit(n, record.height);
    let misled = has_misled(table, k, record);
    let falls = word <= before;
    if unfit {
        return Err(Refusal::Height(k));
    }
    if misled {
        return Err(Refusal::Target(k));
    }
    if falls {
        return Err(Refusal::Order(k));
    }
    if record.high.flagged() {
        return Err(Refusal::ThenFlag(k));
    }
    if record.high == record.low {
        return Err(Refusal::EqualEdges(k));
    }
    Ok(())
}
