// The nodes that an edge of a loose table leads to, laid in a sheet as `compiling` takes them.
// The sheet has four regions of p places, one more than the table has records, and p bytes of marks behind them. First the nodes that are met become words 0, 1, .. and get marks. Then a node keeps its number v: its two edges are words p + v and 3 p + v, its height is word 2 p + v. A node that is not met is laid as the sink is: by zeros.
// (`sheet` and `p` stay two parameters: `keys` says why.)
#![tactic(auto)]

ghost use Rattle.std.specs.Prelude.{◌≡◌, ◌*◌, ◌≤◌, ◌<◌, length};
ghost use Rattle.words.specs.Words.{word_at};
ghost use Rattle.gathering.specs.Inner.{LooseWithin, Reached, mark, NoMarks, Meets, AllMet, IsNode, AllLaid, Laid, MarksStay};

use diagram::{Node, Record};

// Stores the height and the edges of node v.
fn lay(sheet: &mut [u8], p: usize, v: usize, node: Record)
    requires { (32 * p ≤ length sheet.old) × (v < p) }
    ensures { (length sheet.new ≡ length sheet.old)
        × Laid (word_at sheet.old) (word_at sheet.new) p v node.height node.high.value node.low.value × MarksStay sheet.old sheet.new p }
{
    words::put_word(sheet, p + v, node.high.value);
    words::put_word(sheet, 2 * p + v, node.height);
    words::put_word(sheet, 3 * p + v, node.low.value);
}

// Takes all marks away.
fn clear(sheet: &mut [u8], p: usize)
    requires { 33 * p ≤ length sheet.old }
    ensures { (length sheet.new ≡ length sheet.old) × NoMarks sheet.new p }
{
    sheet[32 * p..33 * p].fill(0);
}

// Meets node v: it gets a mark, and is word `count`, and answers how many nodes are met then. (A node that is met again is stored behind the others: a jump here could not be predicted.)
fn meet(sheet: &mut [u8], p: usize, count: usize, v: usize) -> usize
    requires { (33 * p ≤ length sheet.old) × (v < p) × (count < p) × (mark sheet.old p v ≤ 1) }
    ensures { Meets sheet.old sheet.new p count v result }
{
    let at = 32 * p + v;
    let before = sheet[at] as usize;
    sheet[at] = 1;
    words::put_word(sheet, count, v as u64);
    count + 1 - before
}

// Meets node v and all that it leads to. The sink has a mark at once.
fn reach(table: &[u8], sheet: &mut [u8], p: usize, v: Node)
    requires { (33 * p ≤ length sheet.old) × LooseWithin table.now p v.0 × NoMarks sheet.old p }
    ensures { (length sheet.new ≡ length sheet.old) × AllMet (word_at table.now) sheet.new p v.0 }
{
    sheet[32 * p] = 1;
    let mut count = meet(sheet, p, 0, v.0);
    let mut i = 0;
    // no `for`: `count` grows as nodes are met
    while i < count {
        let u = words::word_at(sheet, i) as usize;
        let record = diagram::record_at(table, Node(u));
        count = meet(sheet, p, count, record.high.node().0);
        count = meet(sheet, p, count, record.low.node().0);
        i += 1;
    }
}

// The fields of node v as it is laid: its record's if it has a mark, or zeros; the sink's are zeros.
fn node_at(table: &[u8], sheet: &[u8], p: usize, v: usize) -> Record
    requires { (33 * p ≤ length sheet.now) × (8 * p ≤ length table.now) × (v < p) }
    ensures { IsNode (word_at table.now) sheet.now p v result.height result.high.value result.low.value }
{
    if v == 0 || sheet[32 * p + v] == 0 {
        return Record::from(0);
    }
    diagram::record_at(table, Node(v))
}

// Lays all nodes, by their marks.
fn lay_all(table: &[u8], sheet: &mut [u8], p: usize)
    requires { (33 * p ≤ length sheet.old) × (8 * p ≤ length table.now) }
    ensures { AllLaid (word_at table.now) sheet.old sheet.new p p }
{
    for v in 0..p {
        let node = node_at(table, sheet, p, v);
        lay(sheet, p, v, node);
    }
}

// Lays node v and all that it leads to, in a sheet that may hold anything.
pub fn gather(table: &[u8], sheet: &mut [u8], p: usize, v: Node)
    requires { (33 * p ≤ length sheet.old) × LooseWithin table.now p v.0 }
    ensures { (length sheet.new ≡ length sheet.old)
        × Reached (word_at table.now) (word_at sheet.new) p v.0 }
{
    clear(sheet, p);
    reach(table, sheet, p, v);
    lay_all(table, sheet, p);
}
