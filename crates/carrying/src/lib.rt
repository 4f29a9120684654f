// Words that carry their nodes: by these few nodes are sorted, and numbered with no search.
// (`sheet` and `p` stay two parameters: `keys` says why.)
#![tactic(auto)]

ghost use Rattle.std.specs.Prelude.{◌≡◌, true, ◌*◌, ◌≤◌, ◌<◌, length};
ghost use Rattle.words.specs.Words.{word_at};
ghost use Rattle.carrying.specs.Words.{keyed, sort_word, Carrying, Placed};

use diagram::{Edge, Record};

// The word by which node i, of height h, is sorted: the record of its edges; or where nodes are few, the edges of that record, the flag taken out of them, and the node.
pub fn word_of(few: bool, h: u64, t: Edge, e: Edge, i: usize) -> u64
    requires { (h ≤ 63) × (t.value < 131072) × (e.value < 131072) × (few ≡ true → i < 65536) }
    ensures { result ≡ sort_word few h t.value e.value i }
{
    if few {
        let key = t.value / 2 * 131072 + e.turned_by(t).value;
        return key * 131072 + t.value % 2 * 65536 + i as u64;
    }
    numbering::normal_word(h, t, e)
}

// The record of height h that has the edges of a key.
fn record_of(h: u64, key: u64) -> u64
    requires { (h ≤ 63) × (key < 8589934592) }
    ensures { result ≡ keyed h key }
{
    let high = Edge {
        value: 2 * (key / 131072),
    };
    let low = Edge {
        value: key % 131072,
    };
    let fields = Record {
        height: h,
        high,
        low,
    };
    fields.word()
}

// Gives the nodes of height h that the ascending words c to end - 1 carry the numbers of their records, puts these from place c on, and answers where they end. (A record that repeats is stored again: a jump here could not be predicted.)
pub fn number_carried(sheet: &mut [u8], p: usize, c: usize, end: usize, h: u64) -> usize
    requires { (32 * p ≤ length sheet.old) × (h ≤ 63) × Carrying (word_at sheet.old) p c end }
    ensures { (length sheet.new ≡ length sheet.old)
        × Placed (word_at sheet.old) (word_at sheet.new) p c end h result }
{
    let mut r = c;
    let mut last = 0;
    for k in c..end {
        let word = words::word_at(sheet, k);
        let key = word / 131072;
        if last < key {
            r += 1;
        }
        last = key;
        words::put_word(sheet, r - 1, record_of(h, key));
        let place = p + (word % 65536) as usize;
        words::put_word(sheet, place, 2 * r as u64 + word / 65536 % 2);
    }
    r
}
