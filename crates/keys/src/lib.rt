// A set of keys in lent memory: insert only, in order of insertion, found by a hash table (open addressing, double hashing).
// The memory has regions of p places. Key i is word i; slot s is word 2 p + s and holds 0 if it is free, or 1 + the index of a key.
// (`sheet` and `p` stay two parameters. Tried here as a struct of the lent slice and p, with methods: it proves, but is no plainer. Each contract then writes `self.old.words.now` for `sheet.old`, and each function that stores must say that p stays.)
#![tactic(auto)]

ghost use Rattle.std.specs.Prelude.{◌≡◌, cond, ◌+◌, ◌*◌, ◌≤◌, ◌<◌, ◌^◌, ltb, length};
ghost use Rattle.words.specs.Words.{word_at};
ghost use Rattle.keys.specs.Keys.{mixed, homes, scaled, home, stride, strides, further, Keys, Absent, Open, Searched, Inserted, Cleared};

// The digits of a key, mixed.
fn mixed_of(key: u64) -> u64
    requires { key < 2 ^ 34 }
    ensures { result ≡ mixed key }
{
    key / 131072 * 63951983890327 + key % 131072 * 69500201327305
}

// At how many slots a search may begin.
fn homes_of(p: usize) -> u64
    ensures { (result ≡ homes p) × (result ≤ 2 ^ 32) }
{
    (p as u64).min(4294967296)
}

// A number below 2 ^ 32, scaled to them: there is no division by p.
fn scaled_to(p: usize, x: u64) -> usize
    requires { x < 2 ^ 32 }
    ensures { result ≡ scaled p x }
{
    (x * homes_of(p) / 4294967296) as usize
}

// The slot at which the search for a key begins, from its digits mixed.
fn home_of(p: usize, mix: u64) -> usize
    ensures { result ≡ home p mix }
{
    scaled_to(p, mix / 16384 % 4294967296)
}

// The stride by which it goes on, 1 or more.
fn stride_of(p: usize, mix: u64) -> usize
    requires { 0 < p }
    ensures { result ≡ stride p mix }
{
    scaled_to(p, mix % 4294967296) + 1
}

// How many times it does so.
fn strides_of(p: usize) -> usize
    ensures { (result ≡ strides p) × (result ≤ 1024) }
{
    p.min(1024)
}

// By how much the search goes on after slot number d.
fn step_of(by: usize, d: usize, turns: usize) -> usize
    ensures { result ≡ cond (ltb d turns) by 1 }
{
    if d < turns { by } else { 1 }
}

// The slot that lies so much further on than slot s, the first one after the last.
fn slot_after(s: usize, step: usize, p: usize) -> usize
    requires { (s < p) × (step ≤ p) × (32 * p < 2 ^ 64) }
    ensures { result ≡ further p s step }
{
    let next = s + step;
    if next < p { next } else { next - p }
}

// Frees all slots: the set is empty.
pub fn clear(sheet: &mut [u8], p: usize)
    requires { 32 * p ≤ length sheet.old }
    ensures { (length sheet.new ≡ length sheet.old)
        × Cleared (word_at sheet.old) (word_at sheet.new) p }
{
    sheet[16 * p..24 * p].fill(0);
}

// Searches for a key: its index, or the slot at which the search ended, as the library's binary_search answers.
pub fn search(sheet: &[u8], p: usize, count: usize, key: u64) -> Result<usize, usize>
    requires { (0 < p) × (32 * p ≤ length sheet.now) × (key < 2 ^ 34) × Keys (word_at sheet.now) p count }
    ensures { Searched (word_at sheet.now) p count key result }
{
    let mix = mixed_of(key);
    let by = stride_of(p, mix);
    let turns = strides_of(p);
    let mut slot = home_of(p, mix);
    for d in 0..p + turns {
        let held = words::word_at(sheet, 2 * p + slot);
        if held == 0 {
            return Err(slot);
        }
        let index = (held - 1) as usize;
        if words::word_at(sheet, index) == key {
            return Ok(index);
        }
        slot = slot_after(slot, step_of(by, d, turns), p);
    }
    Err(slot)
}

// Inserts a key that is not in the set, at the slot at which its search ended.
pub fn insert_at(sheet: &mut [u8], p: usize, count: usize, key: u64, slot: usize)
    requires { (32 * p ≤ length sheet.old) × (key < 2 ^ 34) × Keys (word_at sheet.old) p count × (count < p)
        × Absent (word_at sheet.old) count key × Open (word_at sheet.old) p key slot }
    ensures { (length sheet.new ≡ length sheet.old)
        × Inserted (word_at sheet.old) (word_at sheet.new) p count key }
{
    words::put_word(sheet, count, key);
    words::put_word(sheet, 2 * p + slot, (count + 1) as u64);
}
