// Checking, counting, testing and spans for C, each answer packed into one number. For the outside tests and the bench.
// (What packs an answer stands in each function, as in `console`: a function that takes a closure for the value would need a `requires` on it, and be no plainer.)
#![tactic(auto)]

ghost use Rattle.std.specs.Prelude.{◌≡◌, ℕ, ◌+◌, ◌*◌, ◌^◌};
ghost use Rattle.diagram.specs.Count.{indicator};
ghost use Rattle.checking.specs.Operations.{checking, counting, testing, blank, counts};
ghost use Rattle.division.specs.Operations.{spanning};
ghost use Rattle.rules.specs.Packed.{packed};

use diagram::Setup;

// 2^32 × n + N.
#[unsafe(no_mangle)]
pub extern "C" fn setupbook_check(table: &[u8], sheet: &mut [u8]) -> u64
    ensures { (result ≡ packed (λ v. 2 ^ 32 * v.0 + v.1) (checking table.now sheet.old))
        × (sheet.new ≡ blank table.now sheet.old) }
{
    let checked = checking::check(table, sheet);
    match checked {
        Ok(shape) => 4294967296 * shape.settings + (shape.nodes as u64),
        Err(r) => rules::pack_refusal(r),
    }
}

// C.
#[unsafe(no_mangle)]
pub extern "C" fn setupbook_count(table: &[u8], sheet: &mut [u8]) -> u64
    ensures { (result ≡ packed (λ (c : ℕ). c) (counting table.now sheet.old))
        × (sheet.new ≡ counts table.now sheet.old) }
{
    let counted = checking::count(table, sheet);
    match counted {
        Ok(c) => c,
        Err(r) => rules::pack_refusal(r),
    }
}

// 1 if the setup is permitted, 0 if not.
#[unsafe(no_mangle)]
pub extern "C" fn setupbook_test(table: &[u8], setup: u64, sheet: &mut [u8]) -> u64
    ensures { (result ≡ packed indicator (testing table.now setup sheet.old))
        × (sheet.new ≡ blank table.now sheet.old) }
{
    let tested = checking::test(table, Setup(setup), sheet);
    match tested {
        Ok(b) => b as u64,
        Err(r) => rules::pack_refusal(r),
    }
}

// The start of part j of k.
#[unsafe(no_mangle)]
pub extern "C" fn setupbook_span_start(table: &[u8], k: u64, j: u64, sheet: &mut [u8]) -> u64
    ensures { (result ≡ packed (λ v. v.0) (spanning table.now k j sheet.old))
        × (sheet.new ≡ blank table.now sheet.old) }
{
    let spanned = division::span(table, k, j, sheet);
    match spanned {
        Ok(p) => p.start.0,
        Err(r) => rules::pack_refusal(r),
    }
}

// The size of part j of k.
#[unsafe(no_mangle)]
pub extern "C" fn setupbook_span_size(table: &[u8], k: u64, j: u64, sheet: &mut [u8]) -> u64
    ensures { (result ≡ packed (λ v. v.1) (spanning table.now k j sheet.old))
        × (sheet.new ≡ blank table.now sheet.old) }
{
    let spanned = division::span(table, k, j, sheet);
    match spanned {
        Ok(p) => p.size,
        Err(r) => rules::pack_refusal(r),
    }
}
