// What an operation on two tables names, and the pairs of edges made ready to be numbered.
// (`sheet` and `p` stay two parameters: `keys` says why.)
#![tactic(auto)]

ghost use Rattle.std.specs.Prelude.{◌≡◌, ◌*◌, ◌≤◌, ◌<◌, length};
ghost use Rattle.words.specs.Words.{word_at};
ghost use Rattle.pairing.specs.Inner.{PairWithin};
ghost use Rattle.naming.specs.Combination.{names};
ghost use Rattle.naming.specs.Inner.{IsFlag, PairsWithin, Readied, AllReady};

// What is made of two tables.
#[derive(Clone, Copy, Debug, PartialEq, Eq)]
pub enum Operation {
    Joined,
    Shared,
    Without,
}

impl Operation {
    // Whether it names a setup, by which tables permit it.
    fn names(self, first: bool, second: bool) -> bool
        ensures { result ≡ names self first second }
    {
        match self {
            Operation::Joined => first || second,
            Operation::Shared => first && second,
            Operation::Without => first && !second,
        }
    }
}

// The flag of what the operation makes of two sinks, by their flags.
fn flag_of(op: Operation, a: u64, b: u64) -> u64
    ensures { IsFlag op a b result }
{
    u64::from(!op.names(a == 0, b == 0))
}

// Makes pair i ready to be numbered: its height, and the flag of two sinks.
fn ready_pair(table1: &[u8], table2: &[u8], sheet: &mut [u8], p: usize, i: usize, op: Operation)
    requires { (32 * p ≤ length sheet.old) × (i < p) × PairWithin table1.now table2.now (word_at sheet.old i) }
    ensures { Readied op (word_at table1.now) (word_at table2.now) (word_at sheet.old) (word_at sheet.new) p i
        × (length sheet.new ≡ length sheet.old) }
{
    let pair = words::word_at(sheet, i);
    let h = pairing::pair_height(table1, table2, pair);
    words::put_word(sheet, 2 * p + i, h);
    if h == 0 {
        let flag = flag_of(op, pair / 131072 % 2, pair % 131072 % 2);
        words::put_word(sheet, p + i, flag);
    }
}

// Makes all pairs ready.
pub fn ready_all(
    table1: &[u8],
    table2: &[u8],
    sheet: &mut [u8],
    p: usize,
    count: usize,
    op: Operation,
)
    requires { (32 * p ≤ length sheet.old) × (count ≤ p) × PairsWithin table1.now table2.now (word_at sheet.old) count }
    ensures { AllReady op (word_at table1.now) (word_at table2.now) (word_at sheet.old) (word_at sheet.new) p count
        × (length sheet.new ≡ length sheet.old) }
{
    for i in 0..count {
        ready_pair(table1, table2, sheet, p, i, op);
    }
}
