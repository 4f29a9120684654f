// Refusals, and the rules of the header: 1 to 3, and 10.
#![tactic(auto)]

ghost use Rattle.std.specs.Prelude.{◌≡◌, ◌+◌, ◌*◌, ◌≤◌, ◌<◌, ◌^◌};
ghost use Rattle.diagram.specs.Rules.{wrong_root, check_header_of};
ghost use Rattle.rules.specs.Refusals.{number_of, place_of, verdict_as};

use diagram::Node;
use std::error::Error;
use std::fmt;

// An item of a list, counted from 1.
#[derive(Clone, Copy, Debug, PartialEq, Eq)]
pub struct Item(pub usize);

// Why an operation is refused, and at which record or item.
#[derive(Clone, Copy, Debug, PartialEq, Eq)]
pub enum Refusal {
    Length,
    Nodes,
    Root,
    Height(Node),
    Order(Node),
    Target(Node),
    ThenFlag(Node),
    EqualEdges(Node),
    Unnamed(Node),
    Sheet,
    Out,
    SetupRange,
    Unpermitted,
    RankRange,
    PartRange,
    TooManyNodes,
    ItemRange(Item),
    Falls(Item),
    ShortList,
    UnequalSettings,
    TooManyPairs,
    NonePermitted,
}

impl fmt::Display for Refusal {
    // `refused R at P`
    fn fmt<W: fmt::Write>(&self, f: &mut fmt::Formatter<W>) -> fmt::Result {
        let number = number_of(*self);
        let place = place_of(*self);
        write!(f, "refused {number} at {place}")
    }
}

impl Error for Refusal {}

// The number of a refusal.
pub fn number_of(refusal: Refusal) -> u64
    ensures { (result ≡ number_of refusal) × (result < 32) }
{
    match refusal {
        Refusal::Length => 1,
        Refusal::Nodes => 2,
        Refusal::Root => 3,
        Refusal::Height(_) => 4,
        Refusal::Order(_) => 5,
        Refusal::Target(_) => 6,
        Refusal::ThenFlag(_) => 7,
        Refusal::EqualEdges(_) => 8,
        Refusal::Unnamed(_) => 9,
        Refusal::Sheet => 10,
        Refusal::Out => 11,
        Refusal::SetupRange => 12,
        Refusal::Unpermitted => 13,
        Refusal::RankRange => 14,
        Refusal::PartRange => 15,
        Refusal::TooManyNodes => 16,
        Refusal::ItemRange(_) => 14,
        Refusal::Falls(_) => 17,
        Refusal::ShortList => 18,
        Refusal::UnequalSettings => 19,
        Refusal::TooManyPairs => 20,
        Refusal::NonePermitted => 21,
    }
}

// The place of a refusal.
pub fn place_of(refusal: Refusal) -> usize
    ensures { result ≡ place_of refusal }
{
    match refusal {
        Refusal::Height(k)
        | Refusal::Order(k)
        | Refusal::Target(k)
        | Refusal::ThenFlag(k)
        | Refusal::EqualEdges(k)
        | Refusal::Unnamed(k) => k.0,
        Refusal::ItemRange(i) | Refusal::Falls(i) => i.0,
        _ => 0,
    }
}

// A refusal as one number: 2^63 + 2^32 × refusal + place.
pub fn pack_refusal(refusal: Refusal) -> u64
    requires { place_of refusal ≤ 65535 }
    ensures { result ≡ 2 ^ 63 + 2 ^ 32 * number_of refusal + place_of refusal }
{
    9223372036854775808 + 4294967296 * number_of(refusal) + (place_of(refusal) as u64)
}

// Whether a root edge may not lead to node v among `nodes`.
fn is_wrong_root(v: usize, nodes: usize, loose: bool) -> bool
    ensures { result ≡ wrong_root loose v nodes }
{
    if loose { nodes < v } else { v != nodes }
}

// Rules 1 to 3, of a table or of a loose one, and 10 where the sheet has `places` places and each × N + more are needed.
pub fn check_header(
    table: &[u8],
    places: usize,
    each: usize,
    more: usize,
    loose: bool,
) -> Result<(), Refusal>
    requires { (each ≤ 64) × (more ≤ 512) }
    ensures { verdict_as result ≡ check_header_of loose table.now places (λ N. each * N + more) }
{
    if table.len() < 8 {
        return Err(Refusal::Length);
    }
    let header = diagram::header_of(table);
    let nodes = header.nodes;
    if 65535 < nodes {
        return Err(Refusal::Nodes);
    }
    if table.len() != 8 * (nodes + 1) {
        return Err(Refusal::Length);
    }
    if is_wrong_root(header.root.node().0, nodes, loose) {
        return Err(Refusal::Root);
    }
    if places < each * nodes + more {
        return Err(Refusal::Sheet);
    }
    Ok(())
}
