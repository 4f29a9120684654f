// Several models over one diagram: root edges that stand as words in `roots`. Their counts added up, and the model in which a number lies.
// The sheet, the roots, n and m are parameters of their own: inner functions take slices and numbers.
#![tactic(auto)]

ghost use Rattle.std.specs.Prelude.{◌≤◌, ◌<◌};
ghost use Rattle.models.specs.Pairs.{sum_counts};
ghost use Rattle.models.specs.Inner.{models_of, Rooted, RootedIn, AddsUp, LiesAt};

use diagram::Rank;

// The counts of models 0 to m - 1 added up. (64 counts of 2^63 come to 2^69.)
pub fn add_up(sheet: &[u8], roots: &[u8], n: u64, m: usize) -> u128
    requires { RootedIn sheet.now roots.now n m × (m ≤ 64) }
    ensures { AddsUp sheet.now roots.now n m result }
{
    let mut sum: u128 = 0;
    for i in 0..m {
        let c = counting::count_under(sheet, diagram::edge_at(roots, i), n);
        sum += u128::from(c);
    }
    sum
}

// A model, and a rank among its setups.
#[derive(Clone, Copy, Debug, PartialEq, Eq)]
pub struct Within {
    pub model: usize,
    pub rank: Rank,
}

// The model in which pair number r lies, and the rank of the pair's setup there: the counts of the models before it are taken off.
pub fn locate(table: &[u8], sheet: &[u8], roots: &[u8], n: u64, m: usize, r: u64) -> Within
    requires { Rooted table.now sheet.now roots.now n m × (r < sum_counts n (models_of table.now roots.now) m) }
    ensures { LiesAt table.now roots.now n m r result.model result.rank.0 }
{
    let mut left = r;
    for i in 0..m {
        let c = counting::count_under(sheet, diagram::edge_at(roots, i), n);
        if left < c {
            return Within {
                model: i,
                rank: Rank(left),
            };
        }
        left -= c;
    }
    unreachable!()
}
