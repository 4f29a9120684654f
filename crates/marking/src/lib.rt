// Marking the nodes that a root leads to.
#![tactic(auto)]

ghost use Rattle.std.specs.Prelude.{◌≡◌, ◌+◌, ◌*◌, ◌/◌, ◌≤◌, ◌<◌, length};
ghost use Rattle.words.specs.Words.{word_at};
ghost use Rattle.diagram.specs.Ordered.{Ordered};
ghost use Rattle.numbering.specs.Numbered.{Marked};
ghost use Rattle.cutting.specs.Behind.{words_of, last_of, Fits};
ghost use Rattle.marking.specs.Marks.{Spread, MarkedBelow};

use cutting::Extended;
use diagram::{Edge, Node, Record};

// Marks nodes a and b.
fn mark_two(map: &mut [u8], a: Node, b: Node)
    requires { (8 * a.0 + 8 ≤ length map.old) × (8 * b.0 + 8 ≤ length map.old) }
    ensures { Spread (word_at map.old) (word_at map.new) a.0 b.0 }
{
    words::put_word(map, a.0, 1);
    words::put_word(map, b.0, 1);
}

// Marks the nodes that node v leads to, if v is marked.
fn mark_below(cut: &Extended, map: &mut [u8], v: Node)
    requires { Fits map.old cut.now × Ordered (words_of cut.now) cut.now.n (last_of cut.now) × (0 < v.0) × (v.0 ≤ last_of cut.now) }
    ensures { MarkedBelow (words_of cut.now) map.old map.new v.0 }
{
    if words::word_at(map, v.0) == 0 {
        return;
    }
    let record = Record::from(cut.word_in(v));
    mark_two(map, record.high.node(), record.low.node());
}

// Marks the sink, the root's node, and what they lead to.
pub fn mark(cut: &Extended, map: &mut [u8], root: Edge)
    requires { Fits map.old cut.now × Ordered (words_of cut.now) cut.now.n (last_of cut.now) × (root.value / 2 ≤ last_of cut.now) }
    ensures { Marked (words_of cut.now) (word_at map.new) (last_of cut.now) root.value × (length map.new ≡ length map.old) }
{
    let last = cut.last();
    words::blank(map, last + 1);
    mark_two(map, Node(0), root.node());
    for v in (1..=last).rev() {
        mark_below(cut, map, Node(v));
    }
}
