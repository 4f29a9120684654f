// Writing the table of a diagram that is numbered anew: the header, and the new records at their numbers.
#![tactic(auto)]

ghost use Rattle.std.specs.Prelude.{◌≡◌, ◌+◌, ◌*◌, ◌/◌, ◌≤◌, ◌<◌, length};
ghost use Rattle.words.specs.Words.{word_at, put_word};
ghost use Rattle.diagram.specs.Reading.{record_of};
ghost use Rattle.numbering.specs.Renewal.{image, StaysPlain, Readable};
ghost use Rattle.numbering.specs.Numbered.{PlainTable, Finished, Keyed};
ghost use Rattle.cutting.specs.Behind.{words_of, last_of, Fits};
ghost use Rattle.emitting.specs.Emitting.{record_number, HasRecord, Emitted, NumbersFit, HoldsRecords};

use cutting::Extended;
use diagram::{Edge, Header, Node, Record};

// Writes node v's new record, `word`, at its number.
fn write_record(map: &[u8], out: &mut [u8], v: Node, word: u64)
    requires { (8 * v.0 + 8 ≤ length map.now) × (0 < word_at map.now v.0) × (8 * record_number (word_at map.now) v.0 + 8 ≤ length out.old) }
    ensures { out.new ≡ put_word out.old (record_number (word_at map.now) v.0) word }
{
    let number = numbering::edge_to(map, v).node();
    words::put_word(out, number.0, word);
}

// Writes the new record of node v, of record `word`, at its number, if it has one.
fn emit_one(map: &[u8], out: &mut [u8], v: Node, word: u64)
    requires { Readable map.now v.0 word × (HasRecord (word_at map.now) v.0 word → 8 * record_number (word_at map.now) v.0 + 8 ≤ length out.old) }
    ensures { Emitted (word_at map.now) out.old out.new v.0 word }
{
    let key = numbering::key_of(map, v, word);
    let fields = Record::from(key.word);
    if fields.high == fields.low {
        return;
    }
    write_record(map, out, v, key.word);
}

// The same for a node that has one if it is kept, and whose then-edge stays plain. (With emit_one in its place writing a part takes an eighth more instructions.)
fn emit_plain(map: &[u8], out: &mut [u8], v: Node, word: u64)
    requires { Readable map.now v.0 word × (HasRecord (word_at map.now) v.0 word → 8 * record_number (word_at map.now) v.0 + 8 ≤ length out.old)
        × (0 < word_at map.now v.0 → StaysPlain (word_at map.now) word × HasRecord (word_at map.now) v.0 word) }
    ensures { Emitted (word_at map.now) out.old out.new v.0 word }
{
    if words::word_at(map, v.0) == 0 {
        return;
    }
    write_record(map, out, v, numbering::renew_plain(map, word));
}

// Writes the new records of the table's nodes at their numbers.
fn emit_table(cut: &Extended, map: &[u8], out: &mut [u8])
    requires { Fits map.now cut.now × Keyed (words_of cut.now) (word_at map.now) cut.now.n (last_of cut.now)
        × NumbersFit (words_of cut.now) (word_at map.now) (last_of cut.now) (length out.old)
        × PlainTable (words_of cut.now) (word_at map.now) cut.now.n cut.now.nodes }
    ensures { HoldsRecords (words_of cut.now) (word_at map.now) cut.now.nodes (word_at out.old 0) out.new }
{
    let table = cut.table;
    for v in 1..=cut.nodes {
        emit_plain(map, out, Node(v), words::word_at(table, v));
    }
}

// Writes those of the cuts' nodes.
fn emit_cuts(cut: &Extended, map: &[u8], out: &mut [u8])
    requires { Fits map.now cut.now × Keyed (words_of cut.now) (word_at map.now) cut.now.n (last_of cut.now)
        × NumbersFit (words_of cut.now) (word_at map.now) (last_of cut.now) (length out.old)
        × HoldsRecords (words_of cut.now) (word_at map.now) cut.now.nodes (word_at out.old 0) out.old }
    ensures { HoldsRecords (words_of cut.now) (word_at map.now) (last_of cut.now) (word_at out.old 0) out.new }
{
    for v in cut.nodes + 1..=cut.last() {
        emit_one(map, out, Node(v), cut.word_in(Node(v)));
    }
}

// Writes the table of `count` records and the root's edge.
pub fn write_table(cut: &Extended, map: &[u8], out: &mut [u8], count: usize, edge: Edge)
    requires { Fits map.now cut.now × Keyed (words_of cut.now) (word_at map.now) cut.now.n (last_of cut.now)
        × PlainTable (words_of cut.now) (word_at map.now) cut.now.n cut.now.nodes
        × Finished (words_of cut.now) (word_at map.now) cut.now.n (last_of cut.now) count edge.value
        × (8 * count + 8 ≤ length out.old) × (count ≤ 65535) × (edge.value / 2 ≤ last_of cut.now) × (0 < word_at map.now (edge.value / 2)) }
    ensures { HoldsRecords (words_of cut.now) (word_at map.now) (last_of cut.now)
        (record_of cut.now.n count (image (word_at map.now) edge.value)) out.new
        × (length out.new ≡ length out.old) }
{
    let header = Header {
        settings: cut.n as u64,
        nodes: count,
        root: numbering::image_of(map, edge),
    };
    words::put_word(out, 0, header.word());
    emit_table(cut, map, out);
    emit_cuts(cut, map, out);
}
