// Rows of coefficients, modulo 2^64. For a test of setups of h settings let P(z) have as coefficient of z^j how many with j settings on pass, less how many do not.
// Then P(z) / (1 + z)^h is a polynomial in y = z / (1 + z), and its coefficients of y^0 to y^m are the row. A free setting leaves a row as it is, a flag turns its
// signs, and a node has y × the row of its then-edge + (1 - y) × that of its else-edge. Powers above y^m do not reach the setups with at most m settings on.
#![tactic(auto)]

ghost use Rattle.std.specs.Prelude.{◌≡◌, ◌+◌, ◌*◌, ◌%◌, ◌^◌, ◌<◌, ◌≤◌, length};
ghost use Rattle.pascal.specs.Triangle.{PascalsRule};
ghost use Rattle.rows.specs.Inner.{expand, from, Mixes, Next, Entered, Rows, Fillable, Opened, CountsUnder};

use diagram::{Edge, Node};

// Fills `count` places from `to` on: the numbers from `high` on, and those from `plus` on, less those from `minus` on.
fn mix(sheet: &mut [u8], to: usize, high: usize, plus: usize, minus: usize, count: usize)
    requires { (high + count ≤ to) × (plus + count ≤ to) × (minus + count ≤ to) × (8 * (to + count) ≤ length sheet.old) }
    ensures { Mixes sheet.old sheet.new to high plus minus count }
{
    for i in 0..count {
        let sum = words::load(sheet, high + i).wrapping_add(words::load(sheet, plus + i));
        let less = words::load(sheet, minus + i);
        words::store(sheet, to + i, sum.wrapping_sub(less));
    }
}

// Makes the row of node k from those of its edges, of m + 1 places each. The then-edge is plain.
fn enter_row(table: &[u8], sheet: &mut [u8], k: Node, m: usize)
    requires { (0 < k.0) × Next table.now sheet.old m k.0 }
    ensures { Entered table.now sheet.old sheet.new m k.0 }
{
    let record = diagram::record_at(table, k);
    let width = m + 1;
    let to = width * k.0;
    let high = width * record.high.node().0;
    let low = width * record.low.node().0;
    let first = words::load(sheet, low);
    if record.low.flagged() {
        words::store(sheet, to, first.wrapping_neg());
        mix(sheet, to + 1, high, low, low + 1, m);
    } else {
        words::store(sheet, to, first);
        mix(sheet, to + 1, high, low + 1, low, m);
    }
}

// Makes the rows of nodes 0 to N, up to entry m. (k counts from 0: `1..=nodes` takes an instruction a node more.)
pub fn fill(table: &[u8], sheet: &mut [u8], n: u64, nodes: usize, m: usize)
    requires { Fillable table.now sheet.old n nodes m }
    ensures { Rows table.now sheet.new m nodes }
{
    words::blank(sheet, m + 1);
    words::store(sheet, 0, 1);
    for k in 0..nodes {
        enter_row(table, sheet, Node(k + 1), m);
    }
}

// The sum of the m + 1 numbers from place `at` on, number i times the binomial coefficient of n - i and m - i, modulo 2^64.
fn expand_row(sheet: &[u8], binomials: &[u64; 2080], at: usize, n: usize, m: usize) -> u64
    requires { PascalsRule binomials.now 64 × (n ≤ 63) × (m ≤ n) × (8 * (at + m + 1) ≤ length sheet.now) }
    ensures { result ≡ expand (from sheet.now at) n m % 2 ^ 64 }
{
    let mut sum: u64 = 0;
    for i in 0..m {
        let a = words::load(sheet, at + i);
        let b = pascal::coefficient(binomials, n - i, m - i);
        sum = sum.wrapping_add(a.wrapping_mul(b));
    }
    sum.wrapping_add(words::load(sheet, at + m))
}

// How many setups of n settings that edge e permits have exactly m settings on. (All setups with m on, and those permitted less the others, are twice as many.)
pub fn count_under(sheet: &[u8], e: Edge, n: usize, m: usize) -> u64
    requires { Opened sheet.now e.value n m }
    ensures { CountsUnder sheet.now e.value n m result }
{
    let binomials = pascal::binomials();
    let sum = expand_row(sheet, &binomials, (m + 1) * e.node().0, n, m);
    let all = pascal::coefficient(&binomials, n, m);
    if e.flagged() {
        all.wrapping_sub(sum) / 2
    } else {
        all.wrapping_add(sum) / 2
    }
}
