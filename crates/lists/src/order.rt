// Rules 17 and 14, over a whole list.
ghost use Rattle.std.specs.Prelude.{◌≡◌, ◌*◌, ◌≤◌, ◌<◌, length};
ghost use Rattle.words.specs.Words.{word_at};
ghost use Rattle.rules.specs.Refusals.{verdict_as};
ghost use Rattle.lists.specs.Operations.{check_rising};
ghost use Rattle.lists.specs.Inner.{Rising, Parted};

use rules::{Item, Refusal};

// Rule 17, of the first m ranks.
pub fn check_rising(ranks: &[u8], m: usize) -> Result<(), Refusal>
    requires { 8 * m ≤ length ranks.now }
    ensures { verdict_as result ≡ check_rising (word_at ranks.now) m }
{
    for i in 1..m {
        if words::word_at(ranks, i) < words::word_at(ranks, i - 1) {
            return Err(Refusal::Falls(Item(i + 1)));
        }
    }
    Ok(())
}

// How many of the first m ranks, which never fall, are below c. (It looks from the end: where all are, at one of them.)
pub fn count_below(ranks: &[u8], m: usize, c: u64) -> usize
    requires { (8 * m ≤ length ranks.now) × Rising (word_at ranks.now) m }
    ensures { Parted (word_at ranks.now) m c result }
{
    for i in (0..m).rev() {
        if words::word_at(ranks, i) < c {
            return i + 1;
        }
    }
    0
}
