// Pascal's triangle: the binomial coefficients of rows 0 to 63 as one constant, and what an entry counts.
#![tactic(auto)]

ghost use Rattle.std.specs.Prelude.{◌≡◌, ◌≤◌};
ghost use Rattle.pascal.specs.Triangle.{PascalsRule, binomial};

mod table;

use table::BINOMIALS;

// The table. (A constant array is laid out anew where it is read, so whoever reads more than one entry takes the table once.)
pub fn binomials() -> [u64; 2080]
    ensures { PascalsRule result 64 }
{
    BINOMIALS
}

// Entry i of row g: how many of the 2^g setups of g settings have exactly i of them on.
pub fn coefficient(table: &[u64; 2080], g: usize, i: usize) -> u64
    requires { PascalsRule table.now 64 × (g ≤ 63) × (i ≤ g) }
    ensures { result ≡ binomial g i }
{
    table[g * (g + 1) / 2 + i]
}
