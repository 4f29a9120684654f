// Where a setup leaves the book: how many of its first settings rule it out, and the smallest permitted setup that agrees in all of these but the last. It has no `requires`.
#![tactic(auto)]

mod way;

ghost use Rattle.std.specs.Prelude.{◌≡◌};
ghost use Rattle.words.specs.Words.{word_at};
ghost use Rattle.diagram.specs.Meaning.{under};
ghost use Rattle.checking.specs.Operations.{blank};
ghost use Rattle.walking.specs.Inner.{Lies};
ghost use Rattle.exclusion.specs.Answers.{found_as};
ghost use Rattle.exclusion.specs.Operations.{find_setup, ruling_out};

use diagram::{Edge, Setup};
use rules::Refusal;

// p, from 1 to n: no permitted setup begins with the same first p settings. And the smallest permitted setup that agrees in the first p - 1.
#[derive(Clone, Copy, Debug, PartialEq, Eq)]
pub struct Exclusion {
    pub settings: u64,
    pub given: Setup,
}

// The setup is permitted; or nothing is, and p is 0; or it is ruled out.
#[derive(Clone, Copy, Debug, PartialEq, Eq)]
pub enum Ruling {
    Permitted,
    Empty,
    By(Exclusion),
}

// Rule 12, and what is found of setup x of n settings under edge e.
fn find_setup(table: &[u8], n: u64, e: Edge, x: Setup) -> Result<Ruling, Refusal>
    requires { Lies table.now n e.value }
    ensures { found_as result ≡ find_setup x.0 n (under (word_at table.now) e.value) }
{
    if 1 << n <= x.0 {
        return Err(Refusal::SetupRange);
    }
    let way = way::follow(table, n, e, x);
    if way.edge.value == 0 {
        return Ok(Ruling::Permitted);
    }
    if n < way.height {
        return Ok(Ruling::Empty);
    }
    let front = way::turned(x, way.height);
    let rest = way::smallest_under(table, way.other);
    Ok(Ruling::By(Exclusion {
        settings: n + 1 - way.height,
        given: Setup(front.0 + rest.0),
    }))
}

// The settings that rule setup x out.
pub fn ruled_out(table: &[u8], x: Setup, sheet: &mut [u8]) -> Result<Ruling, Refusal>
    ensures { (found_as result ≡ ruling_out table.now x.0 sheet.old)
        × (sheet.new ≡ blank table.now sheet.old) }
{
    let header = checking::begin(table, sheet)?;
    words::blank(sheet, header.nodes + 1);
    find_setup(table, header.settings, header.root, x)
}
