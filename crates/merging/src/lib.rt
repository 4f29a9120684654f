// A table with the nodes of two cuts behind it is numbered anew in the order of the new records: level by level, the table's nodes in between the two of the cuts.
#![tactic(auto)]

ghost use Rattle.std.specs.Prelude.{◌≡◌, ◌+◌, ◌*◌, ◌≤◌, ◌<◌, length};
ghost use Rattle.std.specs.Int.{from_bool};
ghost use Rattle.words.specs.Words.{word_at};
ghost use Rattle.numbering.specs.Renewal.{IsKey};
ghost use Rattle.numbering.specs.Numbered.{Marks, KeepsOrder, Alike, AllNumbered, Keyed};
ghost use Rattle.cutting.specs.Cut.{TwiceCut};
ghost use Rattle.cutting.specs.Behind.{words_of, last_of, Fits};
ghost use Rattle.merging.specs.Inner.{cut_node, front, Merging, Limits, Comes, Reached, Passed, Moved};

use cutting::Extended;
use diagram::Node;
use numbering::{Key, Tally};

// The next node of the table, the heights of the next nodes of the two cuts, and the tally so far.
// (No array of two heights: a bool names a cut without a bound on an index.)
#[derive(Clone, Copy, Debug, PartialEq, Eq)]
struct Progress {
    next: usize,
    first: usize,
    second: usize,
    tally: Tally,
}

impl Progress {
    // The height of a cut's next node.
    fn front(self, second: bool) -> usize
        ensures { result ≡ front self.first self.second second }
    {
        if second { self.second } else { self.first }
    }

    // A cut's next node is numbered.
    fn moved(self, second: bool, tally: Tally) -> Self
        requires { (self.first ≤ 64) × (self.second ≤ 64) }
        ensures { (result.next ≡ self.next) × Moved self.first self.second result.first result.second second
            × (result.tally.count ≡ tally.count) × (result.tally.last ≡ tally.last) }
    {
        if second {
            Progress {
                second: self.second + 1,
                tally,
                ..self
            }
        } else {
            Progress {
                first: self.first + 1,
                tally,
                ..self
            }
        }
    }
}

// The node of height h of a cut.
fn cut_node(cut: &Extended, second: bool, h: usize) -> Node
    requires { h ≤ cut.now.n }
    ensures { result.0 ≡ cut_node cut.now.nodes cut.now.n second h }
{
    if second {
        Node(cut.nodes + cut.n + h)
    } else {
        Node(cut.nodes + h)
    }
}

// What node v becomes.
fn key_in(cut: &Extended, map: &[u8], v: Node) -> Key
    requires { Fits map.now cut.now × Keyed (words_of cut.now) (word_at map.now) cut.now.n (last_of cut.now) × (0 < v.0) × (v.0 ≤ last_of cut.now) }
    ensures { IsKey (word_at map.now) v.0 (words_of cut.now v.0) result.word (from_bool result.flag) }
{
    numbering::key_of(map, v, cut.word_in(v))
}

// Numbers the table's next nodes whose new records are not above the limit. Their then-edges stay plain, and their edges different.
// (`TwiceCut` is a clause of each of these: in a struct round `cut` it would make every name in them longer. `Merging` speaks of the map, which is lent apart.)
fn number_table(cut: &Extended, map: &mut [u8], limit: u64, at: Progress) -> Progress
    requires { Fits map.old cut.now × TwiceCut (words_of cut.now) cut.now.n cut.now.nodes
        × Merging (words_of cut.now) (word_at map.old) cut.now.n cut.now.nodes at.tally.count at.tally.last at.next at.first at.second
        × Limits (words_of cut.now) (word_at map.old) cut.now.n cut.now.nodes at.next at.first at.second limit }
    ensures { Passed (words_of cut.now) map.old map.new cut.now.n cut.now.nodes limit
        at.next at.first at.second result.tally.count result.tally.last result.next
        × (result.first ≡ at.first) × (result.second ≡ at.second) }
{
    let table = cut.table;
    let nodes = cut.nodes;
    let mut tally = at.tally;
    for next in at.next..=nodes {
        if words::word_at(map, next) != 0 {
            let word = numbering::renew_plain(map, words::word_at(table, next));
            if limit < word {
                return Progress { next, tally, ..at };
            }
            tally = numbering::give_number(map, Node(next), Key { word, flag: false }, tally);
        }
    }
    Progress {
        next: nodes + 1,
        tally,
        ..at
    }
}

// Numbers a cut's next node, and before it the table's nodes whose new records are not above its own.
fn number_cut(cut: &Extended, map: &mut [u8], second: bool, at: Progress) -> Progress
    requires { Fits map.old cut.now × TwiceCut (words_of cut.now) cut.now.n cut.now.nodes
        × Merging (words_of cut.now) (word_at map.old) cut.now.n cut.now.nodes at.tally.count at.tally.last at.next at.first at.second
        × Comes (words_of cut.now) (word_at map.old) cut.now.n cut.now.nodes at.next at.first at.second second
        (cut_node cut.now.nodes cut.now.n second (front at.first at.second second)) }
    ensures { Reached (words_of cut.now) map.old map.new cut.now.n cut.now.nodes
        at.next result.tally.count result.tally.last result.next result.first result.second
        × Moved at.first at.second result.first result.second second }
{
    let v = cut_node(cut, second, at.front(second));
    let key = key_in(cut, map, v);
    let on = number_table(cut, map, key.word, at);
    let tally = numbering::give(map, v, key, on.tally);
    on.moved(second, tally)
}

// Numbers the nodes of height h of the cuts, the one of the smaller record first, and the table's nodes before them.
fn number_level(cut: &Extended, map: &mut [u8], h: usize, at: Progress) -> Progress
    requires { Fits map.old cut.now × TwiceCut (words_of cut.now) cut.now.n cut.now.nodes
        × Merging (words_of cut.now) (word_at map.old) cut.now.n cut.now.nodes at.tally.count at.tally.last at.next at.first at.second
        × (at.first ≡ h) × (at.second ≡ h) × (h ≤ cut.now.n) }
    ensures { Reached (words_of cut.now) map.old map.new cut.now.n cut.now.nodes
        at.next result.tally.count result.tally.last result.next result.first result.second
        × (result.first ≡ h + 1) × (result.second ≡ h + 1) }
{
    let limit = (h as u64) * 288230376151711744 - 1;
    let below = number_table(cut, map, limit, at);
    let a = key_in(cut, map, cut_node(cut, false, h));
    let b = key_in(cut, map, cut_node(cut, true, h));
    let swap = b.word < a.word;
    let between = number_cut(cut, map, swap, below);
    number_cut(cut, map, !swap, between)
}

// Numbers the nodes that are marked, and counts their new records.
pub fn number(cut: &Extended, map: &mut [u8]) -> u64
    requires { Fits map.old cut.now × TwiceCut (words_of cut.now) cut.now.n cut.now.nodes
        × Marks (words_of cut.now) (word_at map.old) (last_of cut.now) }
    ensures { AllNumbered (words_of cut.now) (word_at map.new) (last_of cut.now) result
        × KeepsOrder (word_at map.new) (cut.now.nodes + 1)
        × Alike (word_at map.old) (word_at map.new) × (result ≤ last_of cut.now) × (length map.new ≡ length map.old) }
{
    let mut at = Progress {
        next: 1,
        first: 1,
        second: 1,
        tally: Tally { count: 0, last: 0 },
    };
    for h in 1..=cut.n {
        at = number_level(cut, map, h, at);
    }
    let end = number_table(cut, map, u64::MAX, at);
    end.tally.count
}
