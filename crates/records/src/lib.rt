// The rules of the records: 4 to 8 of each, and 9 of all. They touch no lent memory.
#![tactic(auto)]

mod names;
mod pass;

ghost use Rattle.std.specs.Prelude.{◌≡◌, ◌+◌, ◌*◌, ◌≤◌, ◌<◌, length};
ghost use Rattle.words.specs.Words.{word_at};
ghost use Rattle.diagram.specs.Rules.{check_diagram};
ghost use Rattle.rules.specs.Refusals.{verdict_as};
ghost use Rattle.records.specs.Inner.{Marked};

use rules::Refusal;

// Rules 4 to 9, by marks that are clear. (The last node needs no name.)
fn check_named(table: &[u8], marks: &mut [u8], n: u64, nodes: usize) -> Result<(), Refusal>
    requires { (8 * nodes + 8 ≤ length table.now) × (nodes ≤ 65535) × (nodes < length marks.old) × Marked marks.old 0 (word_at table.now) }
    ensures { verdict_as result ≡ check_diagram (word_at table.now) n nodes }
{
    pass::check_records(table, marks, n, nodes)?;
    marks[nodes] = 1;
    names::check_marks(marks, nodes)
}

// ... by M marks on the stack.
fn check_on_stack<const M: usize>(table: &[u8], n: u64, nodes: usize) -> Result<(), Refusal>
    requires { (8 * nodes + 8 ≤ length table.now) × (nodes ≤ 65535) × (nodes < M) × (M ≤ 65536) }
    ensures { verdict_as result ≡ check_diagram (word_at table.now) n nodes }
{
    let mut marks = [0u8; M];
    check_named(table, &mut marks, n, nodes)
}

// Rules 4 to 9, of a diagram of n settings and N nodes. Small tables clear fewer marks.
pub fn check_diagram(table: &[u8], n: u64, nodes: usize) -> Result<(), Refusal>
    requires { (8 * nodes + 8 ≤ length table.now) × (nodes ≤ 65535) }
    ensures { verdict_as result ≡ check_diagram (word_at table.now) n nodes }
{
    if nodes < 256 {
        check_on_stack::<256>(table, n, nodes)
    } else if nodes < 4096 {
        check_on_stack::<4096>(table, n, nodes)
    } else {
        check_on_stack::<65536>(table, n, nodes)
    }
}
