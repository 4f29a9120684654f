// The operations rank and unrank: a permitted setup's number, and the setup of a number. Neither has a `requires`.
#![tactic(auto)]

ghost use Rattle.std.specs.Prelude.{◌≡◌, ◌+◌};
ghost use Rattle.words.specs.Words.{word_at};
ghost use Rattle.diagram.specs.Meaning.{under};
ghost use Rattle.counting.specs.Inner.{Countable};
ghost use Rattle.checking.specs.Operations.{blank};
ghost use Rattle.checking.specs.Inner.{Past};
ghost use Rattle.ranking.specs.Answers.{ranked_as, unranked_as};
ghost use Rattle.ranking.specs.Operations.{rank_setup, ranking, unrank_setup, unranking};

use diagram::{Edge, Rank, Setup};
use rules::Refusal;

// The rank of setup x among those of n settings that edge e permits, or rule 12, or rule 13. The shares are filled in for a rank only.
fn rank_setup(
    table: &[u8],
    sheet: &mut [u8],
    n: u64,
    nodes: usize,
    e: Edge,
    x: Setup,
) -> Result<Rank, Refusal>
    requires { Countable table.now sheet.old n nodes e.value }
    ensures { (ranked_as result ≡ rank_setup x.0 n (under (word_at table.now) e.value))
        × Past (nodes + 1) sheet.old sheet.new }
{
    let permitted = checking::test_setup(table, n, e, x)?;
    if permitted {
        counting::fill(table, sheet, n, nodes);
        return Ok(smaller::rank_under(table, sheet, e, x));
    }
    Err(Refusal::Unpermitted)
}

// The setup of rank r among those of n settings that edge e permits, or rule 14.
fn unrank_setup(
    table: &[u8],
    sheet: &mut [u8],
    n: u64,
    nodes: usize,
    e: Edge,
    r: Rank,
) -> Result<Setup, Refusal>
    requires { Countable table.now sheet.old n nodes e.value }
    ensures { (unranked_as result ≡ unrank_setup r.0 n (under (word_at table.now) e.value))
        × Past (nodes + 1) sheet.old sheet.new }
{
    counting::fill(table, sheet, n, nodes);
    let c = counting::count_under(sheet, e, n);
    if c <= r.0 {
        return Err(Refusal::RankRange);
    }
    Ok(descent::descend(table, sheet, n, e, r))
}

// Ranks a setup: how many permitted setups are smaller.
pub fn rank(table: &[u8], x: Setup, sheet: &mut [u8]) -> Result<Rank, Refusal>
    ensures { (ranked_as result ≡ ranking table.now x.0 sheet.old)
        × (sheet.new ≡ blank table.now sheet.old) }
{
    let header = checking::begin(table, sheet)?;
    let ranked = rank_setup(table, sheet, header.settings, header.nodes, header.root, x);
    words::blank(sheet, header.nodes + 1);
    ranked
}

// Unranks a number: the permitted setup with that many smaller ones.
pub fn unrank(table: &[u8], r: Rank, sheet: &mut [u8]) -> Result<Setup, Refusal>
    ensures { (unranked_as result ≡ unranking table.now r.0 sheet.old)
        × (sheet.new ≡ blank table.now sheet.old) }
{
    let header = checking::begin(table, sheet)?;
    let nodes = header.nodes;
    let unranked = unrank_setup(table, sheet, header.settings, nodes, header.root, r);
    words::blank(sheet, nodes + 1);
    unranked
}
