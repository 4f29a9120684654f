// The operations: checking, counting and testing. None has a `requires`: every table, sheet and setup gets its answer or its refusal.
#![tactic(auto)]

ghost use Rattle.std.specs.Prelude.{◌≡◌, ◌+◌, ◌*◌, ◌/◌, ◌≤◌};
ghost use Rattle.words.specs.Words.{word_at};
ghost use Rattle.diagram.specs.Meaning.{under};
ghost use Rattle.diagram.specs.Reading.{Within};
ghost use Rattle.checking.specs.Answers.{checked_as, counted_as, tested_as};
ghost use Rattle.checking.specs.Operations.{checking, counting, test_setup, testing, blank, counts};
ghost use Rattle.checking.specs.Inner.{Begins};

use diagram::{Edge, Header, Setup};
use rules::Refusal;

// An accepted table's n and N.
#[derive(Clone, Copy, Debug, PartialEq, Eq)]
pub struct Shape {
    pub settings: u64,
    pub nodes: usize,
}

// How an operation begins that needs each × N + more places of the sheet: the table's header, or its refusal. After 9 the sheet is blank, otherwise it is untouched.
pub fn begin_with(
    table: &[u8],
    sheet: &mut [u8],
    each: usize,
    more: usize,
) -> Result<Header, Refusal>
    requires { (each ≤ 64) × (more ≤ 512) }
    ensures { Begins (λ N. each * N + more) table.now sheet.old sheet.new result }
{
    rules::check_header(table, sheet.len() / 8, each, more, false)?;
    let header = diagram::header_of(table);
    match records::check_diagram(table, header.settings, header.nodes) {
        Ok(()) => Ok(header),
        Err(r) => {
            if let Refusal::Unnamed(_) = r {
                words::blank(sheet, each * header.nodes + more);
            }
            Err(r)
        }
    }
}

// ... that needs N + 1 places, as most do.
pub fn begin(table: &[u8], sheet: &mut [u8]) -> Result<Header, Refusal>
    ensures { Begins (λ N. N + 1) table.now sheet.old sheet.new result }
{
    begin_with(table, sheet, 1, 1)
}

// Checks a table: its n and N, or its refusal.
pub fn check(table: &[u8], sheet: &mut [u8]) -> Result<Shape, Refusal>
    ensures { (checked_as result ≡ checking table.now sheet.old)
        × (sheet.new ≡ blank table.now sheet.old) }
{
    let header = begin(table, sheet)?;
    let settings = header.settings;
    let nodes = header.nodes;
    words::blank(sheet, nodes + 1);
    Ok(Shape { settings, nodes })
}

// Counts the permitted setups. Their counts by node stay in the sheet.
pub fn count(table: &[u8], sheet: &mut [u8]) -> Result<u64, Refusal>
    ensures { (counted_as result ≡ counting table.now sheet.old)
        × (sheet.new ≡ counts table.now sheet.old) }
{
    let header = begin(table, sheet)?;
    counting::fill(table, sheet, header.settings, header.nodes);
    let c = counting::count_under(sheet, header.root, header.settings);
    counting::settle(table, sheet, header.nodes);
    Ok(c)
}

// Rule 12, and whether edge e permits setup x of n settings.
pub fn test_setup(table: &[u8], n: u64, e: Edge, x: Setup) -> Result<bool, Refusal>
    requires { Within table.now (e.value / 2) × (n ≤ 63) }
    ensures { tested_as result ≡ test_setup x.0 n (under (word_at table.now) e.value) }
{
    if 1 << n <= x.0 {
        return Err(Refusal::SetupRange);
    }
    Ok(walking::permitted_under(table, e, x))
}

// Tests whether a setup is permitted.
pub fn test(table: &[u8], x: Setup, sheet: &mut [u8]) -> Result<bool, Refusal>
    ensures { (tested_as result ≡ testing table.now x.0 sheet.old)
        × (sheet.new ≡ blank table.now sheet.old) }
{
    let header = begin(table, sheet)?;
    words::blank(sheet, header.nodes + 1);
    test_setup(table, header.settings, header.root, x)
}
