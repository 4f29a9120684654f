// Words of 64 bits in a slice of bytes, most significant byte first: a read is one load and a byte swap, a write a byte swap and one store.
// The load and the store have functions of their own, least significant byte first: the compiler makes one access of each. Numbers that nobody else reads are left in that order.
#![tactic(auto)]

ghost use Rattle.std.specs.Prelude.{◌≡◌, ◌+◌, ◌*◌, ◌≤◌, length};
ghost use Rattle.std.specs.Int.{w64, to_le_bytes};
ghost use Rattle.words.specs.Words.{word_at, put_word, words_over};
ghost use Rattle.words.specs.Swap.{swap};

// The eight bytes of word k, least significant first.
pub fn load(bytes: &[u8], k: usize) -> u64
    requires { 8 * k + 8 ≤ length bytes.now }
    ensures { swap result ≡ word_at bytes.now k }
{
    let i = 8 * k;
    u64::from_le_bytes(*bytes[i..i + 8].as_array().unwrap())
}

// Stores v into eight bytes, least significant first. `copy_from_slice` would test at each store whether the two overlap.
// A function of its own: of a part of a slice that is lent on as an array, Rattle doesn't tell what the part ends as.
fn write_little(word: &mut [u8], v: u64)
    requires { length word.old ≡ 8 }
    ensures { word.new ≡ to_le_bytes w64 v }
{
    *word.as_mut_array().unwrap() = v.to_le_bytes();
}

// Stores v as word k, least significant byte first.
pub fn store(bytes: &mut [u8], k: usize, v: u64)
    requires { 8 * k + 8 ≤ length bytes.old }
    ensures { bytes.new ≡ put_word bytes.old k (swap v) }
{
    let i = 8 * k;
    write_little(&mut bytes[i..i + 8], v);
}

// Word k.
pub fn word_at(bytes: &[u8], k: usize) -> u64
    requires { 8 * k + 8 ≤ length bytes.now }
    ensures { result ≡ word_at bytes.now k }
{
    load(bytes, k).swap_bytes()
}

// Stores v as word k.
pub fn put_word(bytes: &mut [u8], k: usize, v: u64)
    requires { 8 * k + 8 ≤ length bytes.old }
    ensures { bytes.new ≡ put_word bytes.old k v }
{
    store(bytes, k, v.swap_bytes());
}

// Stores 0 as words 0 to m - 1.
pub fn blank(bytes: &mut [u8], m: usize)
    requires { 8 * m ≤ length bytes.old }
    ensures { bytes.new ≡ words_over (λ _. 0) m bytes.old }
{
    bytes[..8 * m].fill(0);
}
