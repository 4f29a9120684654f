// Numbers the nodes of a diagram height by height: nodes in any order become the records of a reduced diagram.
// The sheet has regions of p places. At first node i has its two edges (2 × node + flag) at p + i and 3 p + i, and its height at 2 p + i; a node of height 0 has its flag at p + i.
// In the end the edge that node i has become stands at p + i, and the records stand from place 0 on.
// (`sheet` and `p` stay two parameters: `keys` says why.)
#![tactic(auto)]

ghost use Rattle.std.specs.Prelude.{◌≡◌, true, not, suc, ◌+◌, ◌*◌, ◌/◌, ◌≤◌, ◌<◌, eqb, length, replicate};
ghost use Rattle.words.specs.Words.{word_at};
ghost use Rattle.numbering.specs.Numbered.{Good};
ghost use Rattle.reducing.specs.Levels.{through};
ghost use Rattle.reducing.specs.Inner.{height_of, result_of, records_of, HoldsNodes, Outcome};
ghost use Rattle.reducing.specs.Steps.{Nodes, Linked, Low, Ready, Leads, Renewed, Collects, Findable, Countable, Counts, Raises};

use diagram::Edge;

// Makes a list for each height: heads[h] is 1 + the last node of height h, or 0, and in place of its height a node gets 1 + the one of its height before it, or 0.
fn link(sheet: &mut [u8], heads: &mut [u64; 64], p: usize, count: usize)
    requires { (32 * p ≤ length sheet.old) × (count ≤ p) × (heads.old ≡ replicate 64 0) × Low (height_of (word_at sheet.old) p) count }
    ensures { (length sheet.new ≡ length sheet.old)
        × Linked (height_of (word_at sheet.old) p) (word_at sheet.old) (word_at sheet.new) heads.new p count }
{
    for i in 0..count {
        let place = 2 * p + i;
        let at = words::word_at(sheet, place) as usize;
        words::put_word(sheet, place, heads[at]);
        heads[at] = (i + 1) as u64;
    }
}

// What edge e becomes.
pub fn through_of(sheet: &[u8], p: usize, e: u64) -> Edge
    requires { 8 * (p + e / 2) + 8 ≤ length sheet.now }
    ensures { result.value ≡ through (result_of (word_at sheet.now) p) e }
{
    let place = words::word_at(sheet, p + (e / 2) as usize);
    Edge { value: place }.turned_by(Edge { value: e })
}

// Puts what the edges of node i, of height h, become in their places, stores its word at `end`, and answers whether they differ.
fn renew(sheet: &mut [u8], few: bool, p: usize, i: usize, h: u64, end: usize) -> bool
    requires { (32 * p ≤ length sheet.old) × (i < p) × (end < p) × (h ≤ 63) × Leads (word_at sheet.old) p i × (few ≡ true → i < 65536) }
    ensures { (length sheet.new ≡ length sheet.old)
        × Renewed few (word_at sheet.old) (word_at sheet.new) p i h end
        × (result ≡ not (eqb (word_at sheet.new (p + i)) (word_at sheet.new (3 * p + i)))) }
{
    let high = p + i;
    let low = 3 * p + i;
    let t = through_of(sheet, p, words::word_at(sheet, high));
    let e = through_of(sheet, p, words::word_at(sheet, low));
    words::put_word(sheet, high, t.value);
    words::put_word(sheet, low, e.value);
    words::put_word(sheet, end, carrying::word_of(few, h, t, e, i));
    t != e
}

// Collects the words of the nodes of height h whose edges become different ones, from place c on, and answers where they end.
fn collect(sheet: &mut [u8], few: bool, p: usize, c: usize, h: u64, first: u64) -> usize
    requires { (32 * p ≤ length sheet.old) × ((D : Nodes) × Ready few D (word_at sheet.old) p c h first) }
    ensures { (length sheet.new ≡ length sheet.old)
        × Collects few (word_at sheet.old) (word_at sheet.new) p c h first result 0 }
{
    let mut end = c;
    let mut next = first;
    while 0 < next {
        let i = (next - 1) as usize;
        if renew(sheet, few, p, i, h, end) {
            end += 1;
        }
        next = words::word_at(sheet, 2 * p + i);
    }
    end
}

// What node i, of height h, becomes, where the records of that height are words c to end - 1.
fn result_of(sheet: &[u8], p: usize, c: usize, end: usize, h: u64, i: usize) -> u64
    requires { (32 * p ≤ length sheet.now) × (i < p) × (end ≤ p) × (h ≤ 63) × Findable (word_at sheet.now) p c end h i }
    ensures { Good h (word_at sheet.now (p + i)) (word_at sheet.now (3 * p + i)) (suc result) (records_of (word_at sheet.now)) end }
{
    let t = Edge {
        value: words::word_at(sheet, p + i),
    };
    let e = Edge {
        value: words::word_at(sheet, 3 * p + i),
    };
    if t == e {
        return t.value;
    }
    let k = sorting::find(sheet, c, end, numbering::normal_word(h, t, e));
    2 * (k as u64 + 1) + t.value % 2
}

// Gives the nodes of height h the numbers of their records, which are words c to end - 1.
fn number(sheet: &mut [u8], p: usize, c: usize, end: usize, h: u64, first: u64)
    requires { (32 * p ≤ length sheet.old) × ((D : Nodes) × Countable D (word_at sheet.old) p c end h first) }
    ensures { (length sheet.new ≡ length sheet.old)
        × Counts (word_at sheet.old) (word_at sheet.new) p c end h first 0 }
{
    let mut next = first;
    while 0 < next {
        let i = (next - 1) as usize;
        let r = result_of(sheet, p, c, end, h, i);
        words::put_word(sheet, p + i, r);
        next = words::word_at(sheet, 2 * p + i);
    }
}

// Numbers the nodes of height h, after c records of lower heights, and answers how many records there are now.
fn level(sheet: &mut [u8], few: bool, p: usize, c: usize, h: u64, first: u64) -> usize
    requires { (32 * p ≤ length sheet.old) × ((D : Nodes) × Ready few D (word_at sheet.old) p c h first) }
    ensures { (length sheet.new ≡ length sheet.old)
        × Raises few (word_at sheet.old) (word_at sheet.new) p c h first result }
{
    let end = collect(sheet, few, p, c, h, first);
    sorting::sort(sheet, c, end);
    if few {
        return carrying::number_carried(sheet, p, c, end, h);
    }
    let r = sorting::unique(sheet, c, end);
    number(sheet, p, c, r, h, first);
    r
}

// Numbers the nodes, up to height n, and answers how many records there are; `None` if there are more than 65,535.
pub fn reduce(sheet: &mut [u8], p: usize, count: usize, n: u64) -> Option<usize>
    requires { (32 * p ≤ length sheet.old) × (n ≤ 63) × HoldsNodes (word_at sheet.old) p n count }
    ensures { (length sheet.new ≡ length sheet.old)
        × Outcome (word_at sheet.old) (word_at sheet.new) p n count result }
{
    let mut heads = [0u64; 64];
    link(sheet, &mut heads, p, count);
    let few = count <= 65536;
    let mut c = 0;
    for h in 1..=n {
        c = level(sheet, few, p, c, h, heads[h as usize]);
        if 65535 < c {
            return None;
        }
    }
    Some(c)
}
