// The setups of a list of ranks, in one call. It has no `requires`.
#![tactic(auto)]

mod order;

ghost use Rattle.std.specs.Prelude.{◌≡◌, ℕ, ◌+◌, ◌*◌, ◌<◌, ◌≤◌, ◌^◌, length};
ghost use Rattle.words.specs.Words.{word_at, words_over};
ghost use Rattle.diagram.specs.Meaning.{under};
ghost use Rattle.diagram.specs.Count.{count_below};
ghost use Rattle.counting.specs.Inner.{Opens, Countable};
ghost use Rattle.checking.specs.Operations.{blank};
ghost use Rattle.checking.specs.Inner.{Past};
ghost use Rattle.lists.specs.Answers.{listed_as};
ghost use Rattle.lists.specs.Operations.{items, setup_at, unrank_items, unranking_list, setups_by, setups_after};
ghost use Rattle.lists.specs.Inner.{Rising};

use diagram::{Edge, Rank};
use rules::{Item, Refusal};
use trail::Path;

// Writes the setups of the first m ranks, which never fall and all have one.
fn write_setups(
    table: &[u8],
    sheet: &[u8],
    n: u64,
    root: Edge,
    ranks: &[u8],
    m: usize,
    setups: &mut [u8],
)
    requires { Opens table.now sheet.now root.value n × (8 * m ≤ length ranks.now) × (8 * m ≤ length setups.old) × Rising (word_at ranks.now) m
        × ((i : ℕ) → i < m → word_at ranks.now i < count_below (under (word_at table.now) root.value) (2 ^ n)) }
    ensures { setups.new ≡ words_over (setup_at (word_at ranks.now) n (under (word_at table.now) root.value)) m setups.old }
{
    let mut path = Path::at(n, root, counting::count_under(sheet, root, n));
    for i in 0..m {
        let r = Rank(words::word_at(ranks, i));
        let x = path.next_setup(table, sheet, r);
        words::put_word(setups, i, x.0);
    }
}

// The setups of the ranks among those of n settings that edge e permits, or rule 18, or rule 17, or rule 14. The shares are filled in where the list's own rules pass.
fn unrank_items(
    table: &[u8],
    ranks: &[u8],
    sheet: &mut [u8],
    n: u64,
    nodes: usize,
    e: Edge,
    setups: &mut [u8],
) -> Result<usize, Refusal>
    requires { Countable table.now sheet.old n nodes e.value }
    ensures { (listed_as result ≡ unrank_items ranks.now (items setups.old) n (under (word_at table.now) e.value))
        × (setups.new ≡ setups_by (word_at ranks.now) n (under (word_at table.now) e.value) (listed_as result) setups.old)
        × Past (nodes + 1) sheet.old sheet.new }
{
    let m = ranks.len() / 8;
    if setups.len() / 8 < m {
        return Err(Refusal::ShortList);
    }
    order::check_rising(ranks, m)?;
    counting::fill(table, sheet, n, nodes);
    let c = counting::count_under(sheet, e, n);
    let fine = order::count_below(ranks, m, c);
    if fine < m {
        return Err(Refusal::ItemRange(Item(fine + 1)));
    }
    write_setups(table, sheet, n, e, ranks, m, setups);
    Ok(m)
}

// Unranks a list of numbers: the setups are written to `setups`, each as unranking its number alone gives it.
pub fn unrank_list(
    table: &[u8],
    ranks: &[u8],
    sheet: &mut [u8],
    setups: &mut [u8],
) -> Result<usize, Refusal>
    ensures { (listed_as result ≡ unranking_list table.now ranks.now sheet.old (items setups.old))
        × (sheet.new ≡ blank table.now sheet.old)
        × (setups.new ≡ setups_after table.now ranks.now sheet.old setups.old) }
{
    let header = checking::begin(table, sheet)?;
    let listed = unrank_items(
        table,
        ranks,
        sheet,
        header.settings,
        header.nodes,
        header.root,
        setups,
    );
    words::blank(sheet, header.nodes + 1);
    listed
}
