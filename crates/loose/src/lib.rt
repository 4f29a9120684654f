// The rules of the records of a loose table: 4 and 6 of each. They touch no lent memory.
#![tactic(auto)]

ghost use Rattle.std.specs.Prelude.{◌≡◌, ◌||◌, ◌+◌, ◌*◌, ◌≤◌, ◌<◌, length};
ghost use Rattle.words.specs.Words.{word_at};
ghost use Rattle.rules.specs.Refusals.{verdict_as};
ghost use Rattle.loose.specs.Rules.{astray, check_loose_record, check_loose_records};

use diagram::{Edge, Node, Record};
use rules::Refusal;

// Whether edge e of a record of height h leads to a node above N, or to one not below h. (A later record's height is read as it stands.)
fn is_astray(table: &[u8], nodes: usize, h: u64, e: Edge) -> bool
    requires { 8 * nodes + 8 ≤ length table.now }
    ensures { result ≡ astray (word_at table.now) nodes h e.value }
{
    let node = e.node();
    nodes < node.0 || h <= diagram::height_at(table, node)
}

// Whether one of a record's edges does.
fn has_astray(table: &[u8], nodes: usize, fields: Record) -> bool
    requires { 8 * nodes + 8 ≤ length table.now }
    ensures { result ≡ (astray (word_at table.now) nodes fields.height fields.high.value || astray (word_at table.now) nodes fields.height fields.low.value) }
{
    is_astray(table, nodes, fields.height, fields.high)
        || is_astray(table, nodes, fields.height, fields.low)
}

// Rules 4 and 6, of record k.
fn check_record(table: &[u8], n: u64, nodes: usize, k: Node) -> Result<(), Refusal>
    requires { (0 < k.0) × (k.0 ≤ nodes) × (8 * nodes + 8 ≤ length table.now) }
    ensures { verdict_as result ≡ check_loose_record (word_at table.now) n nodes k.0 }
{
    let record = diagram::record_at(table, k);
    if faults::is_unfit(n, record.height) {
        return Err(Refusal::Height(k));
    }
    if has_astray(table, nodes, record) {
        return Err(Refusal::Target(k));
    }
    Ok(())
}

// Rules 4 and 6, of records 1 to N upward.
pub fn check_records(table: &[u8], n: u64, nodes: usize) -> Result<(), Refusal>
    requires { 8 * nodes + 8 ≤ length table.now }
    ensures { verdict_as result ≡ check_loose_records (word_at table.now) n nodes }
{
    for k in 0..nodes {
        check_record(table, n, nodes, Node(k + 1))?;
    }
    Ok(())
}
