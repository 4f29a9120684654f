// The setup book for a C program: numbers and byte memory in; out comes one packed number, or a number and three words. include/setupbook.h declares these functions.
// (What packs an answer stands in each function: the values differ, and `map_or_else` would put closures on the way of unranking, which `.ci/undivided` cannot follow. Join, share and without are three functions over one: the C interface.)
#![tactic(auto)]

ghost use Rattle.std.specs.Prelude.{◌≡◌, ℕ, length};
ghost use Rattle.rules.specs.Packed.{packed};
ghost use Rattle.checking.specs.Operations.{blank, blank_for};
ghost use Rattle.ranking.specs.Operations.{ranking, unranking};
ghost use Rattle.exclusion.specs.Operations.{ruling_out};
ghost use Rattle.lists.specs.Operations.{items, unranking_list, setups_after};
ghost use Rattle.tables.specs.Writing.{length_of};
ghost use Rattle.parts.specs.Operations.{part_writing, Promise};
ghost use Rattle.weighing.specs.Operations.{needed, counting_on};
ghost use Rattle.correcting.specs.Operations as correcting;
ghost use Rattle.correcting.specs.Operations.{correcting};
ghost use Rattle.tightening.specs.Operations as tightening;
ghost use Rattle.tightening.specs.Operations.{making_proper};
ghost use Rattle.naming.specs.declared.Operation.TheVariants.{Joined, Shared, Without};
ghost use Rattle.telling.specs.Told.{single, double, found_words, returned, told};
ghost use Rattle.console.specs.Combines.{Combines};

use diagram::{Rank, Setup};
use naming::Operation;

// The rank of a setup.
#[unsafe(no_mangle)]
pub extern "C" fn setupbook_rank(table: &[u8], setup: u64, sheet: &mut [u8]) -> u64
    ensures { (result ≡ packed (λ (v : ℕ). v) (ranking table.now setup sheet.old))
        × (sheet.new ≡ blank table.now sheet.old) }
{
    let ranked = ranking::rank(table, Setup(setup), sheet);
    match ranked {
        Ok(r) => r.0,
        Err(r) => rules::pack_refusal(r),
    }
}

// The setup of a rank.
#[unsafe(no_mangle)]
pub extern "C" fn setupbook_unrank(table: &[u8], rank: u64, sheet: &mut [u8]) -> u64
    ensures { (result ≡ packed (λ (v : ℕ). v) (unranking table.now rank sheet.old))
        × (sheet.new ≡ blank table.now sheet.old) }
{
    let unranked = ranking::unrank(table, Rank(rank), sheet);
    match unranked {
        Ok(x) => x.0,
        Err(r) => rules::pack_refusal(r),
    }
}

// The permitted setups with exactly m settings on: how many.
#[unsafe(no_mangle)]
pub extern "C" fn setupbook_count_on(
    table: &[u8],
    m: u64,
    sheet: &mut [u8],
    answer: &mut [u64; 3],
) -> u64
    ensures { (result ≡ returned (counting_on table.now m sheet.old))
        × (answer.new ≡ told single (counting_on table.now m sheet.old))
        × (sheet.new ≡ blank_for needed table.now sheet.old) }
{
    let counted = weighing::count_on(table, m, sheet);
    telling::tell(counted, answer)
}

// The settings that rule a setup out: how many, and the setup given.
#[unsafe(no_mangle)]
pub extern "C" fn setupbook_ruled_out(
    table: &[u8],
    setup: u64,
    sheet: &mut [u8],
    answer: &mut [u64; 3],
) -> u64
    ensures { (result ≡ returned (ruling_out table.now setup sheet.old))
        × (answer.new ≡ told found_words (ruling_out table.now setup sheet.old))
        × (sheet.new ≡ blank table.now sheet.old) }
{
    let found = exclusion::ruled_out(table, Setup(setup), sheet);
    telling::tell(found, answer)
}

// The permitted setup closest to another, and in how many settings it differs.
#[unsafe(no_mangle)]
pub extern "C" fn setupbook_closest(
    table: &[u8],
    setup: u64,
    sheet: &mut [u8],
    answer: &mut [u64; 3],
) -> u64
    ensures { (result ≡ returned (correcting table.now setup sheet.old))
        × (answer.new ≡ told double (correcting table.now setup sheet.old))
        × (sheet.new ≡ blank_for correcting.needed table.now sheet.old) }
{
    let corrected = correcting::closest(table, Setup(setup), sheet);
    telling::tell(corrected, answer)
}

// The setups of a list of ranks: how many.
#[unsafe(no_mangle)]
pub extern "C" fn setupbook_unrank_list(
    table: &[u8],
    ranks: &[u8],
    sheet: &mut [u8],
    setups: &mut [u8],
    answer: &mut [u64; 3],
) -> u64
    ensures { (result ≡ returned (unranking_list table.now ranks.now sheet.old (items setups.old)))
        × (answer.new ≡ told single (unranking_list table.now ranks.now sheet.old (items setups.old)))
        × (sheet.new ≡ blank table.now sheet.old)
        × (setups.new ≡ setups_after table.now ranks.now sheet.old setups.old) }
{
    let listed = lists::unrank_list(table, ranks, sheet, setups);
    telling::tell(listed, answer)
}

// A part of a division, written: how many bytes.
#[unsafe(no_mangle)]
pub extern "C" fn setupbook_part_write(
    table: &[u8],
    k: u64,
    j: u64,
    sheet: &mut [u8],
    out: &mut [u8],
) -> u64
    ensures { (result ≡ packed (λ (v : ℕ). v) (length_of (part_writing table.now k j sheet.old (length out.old))))
        × Promise table.now k j sheet.old out.old
        (length_of (part_writing table.now k j sheet.old (length out.old))) sheet.new out.new }
{
    let written = parts::part_write(table, k, j, sheet, out);
    match written {
        Ok(m) => m as u64,
        Err(r) => rules::pack_refusal(r),
    }
}

// A loose table made proper: how many bytes.
#[unsafe(no_mangle)]
pub extern "C" fn setupbook_make_proper(
    table: &[u8],
    sheet: &mut [u8],
    out: &mut [u8],
    answer: &mut [u64; 3],
) -> u64
    ensures { (result ≡ returned (length_of (making_proper table.now sheet.old (length out.old))))
        × (answer.new ≡ told single (length_of (making_proper table.now sheet.old (length out.old))))
        × tightening.Promise table.now sheet.old out.old
        (length_of (making_proper table.now sheet.old (length out.old))) sheet.new out.new }
{
    let written = tightening::make_proper(table, sheet, out);
    telling::tell(written, answer)
}

// Two tables made into one by an operation: how many bytes.
fn combine(
    op: Operation,
    table1: &[u8],
    sheet1: &mut [u8],
    table2: &[u8],
    sheet2: &mut [u8],
    pairs: &mut [u8],
    out: &mut [u8],
    answer: &mut [u64; 3],
) -> u64
    ensures { Combines op table1.now sheet1.old table2.now sheet2.old pairs.old out.old
        result answer.new sheet1.new sheet2.new pairs.new out.new }
{
    let combined = combining::combine(op, table1, sheet1, table2, sheet2, pairs, out);
    telling::tell_combined(combined, answer)
}

// The setups of either of two tables.
#[unsafe(no_mangle)]
pub extern "C" fn setupbook_join(
    table1: &[u8],
    sheet1: &mut [u8],
    table2: &[u8],
    sheet2: &mut [u8],
    pairs: &mut [u8],
    out: &mut [u8],
    answer: &mut [u64; 3],
) -> u64
    ensures { Combines Joined table1.now sheet1.old table2.now sheet2.old pairs.old out.old
        result answer.new sheet1.new sheet2.new pairs.new out.new }
{
    combine(
        Operation::Joined,
        table1,
        sheet1,
        table2,
        sheet2,
        pairs,
        out,
        answer,
    )
}

// The setups of both.
#[unsafe(no_mangle)]
pub extern "C" fn setupbook_share(
    table1: &[u8],
    sheet1: &mut [u8],
    table2: &[u8],
    sheet2: &mut [u8],
    pairs: &mut [u8],
    out: &mut [u8],
    answer: &mut [u64; 3],
) -> u64
    ensures { Combines Shared table1.now sheet1.old table2.now sheet2.old pairs.old out.old
        result answer.new sheet1.new sheet2.new pairs.new out.new }
{
    combine(
        Operation::Shared,
        table1,
        sheet1,
        table2,
        sheet2,
        pairs,
        out,
        answer,
    )
}

// The setups of the first without those of the second.
#[unsafe(no_mangle)]
pub extern "C" fn setupbook_without(
    table1: &[u8],
    sheet1: &mut [u8],
    table2: &[u8],
    sheet2: &mut [u8],
    pairs: &mut [u8],
    out: &mut [u8],
    answer: &mut [u64; 3],
) -> u64
    ensures { Combines Without table1.now sheet1.old table2.now sheet2.old pairs.old out.old
        result answer.new sheet1.new sheet2.new pairs.new out.new }
{
    combine(
        Operation::Without,
        table1,
        sheet1,
        table2,
        sheet2,
        pairs,
        out,
        answer,
    )
}
