// The distance of two setups, and a setup with one setting set.
#![tactic(auto)]

ghost use Rattle.std.specs.Prelude.{◌≡◌, ◌≤◌, ◌<◌, ◌^◌};
ghost use Rattle.diagram.specs.Meaning.{bit};
ghost use Rattle.distances.specs.Distance.{distance};
ghost use Rattle.distances.specs.Inner.{set_at};

use diagram::Setup;

// In how many settings two setups differ: the count of ones of their exclusive or.
pub fn between(x: Setup, y: Setup) -> u64
    ensures { result ≡ distance 64 x.0 y.0 }
{
    u64::from((x.0 ^ y.0).count_ones())
}

// Whether the setting of height h is on.
pub fn setting(x: Setup, h: u64) -> bool
    requires { (0 < h) × (h ≤ 63) }
    ensures { result ≡ bit h x.0 }
{
    (x.0 >> (h - 1)) % 2 == 1
}

// Setup x with its setting of height h on or off.
pub fn set_setting(x: Setup, h: u64, on: bool) -> Setup
    requires { (0 < h) × (h ≤ 63) × (x.0 < 2 ^ 63) }
    ensures { result.0 ≡ set_at on h x.0 }
{
    let before = (x.0 >> h) * 2 + u64::from(on);
    let behind = x.0 % (1 << (h - 1));
    Setup((before << (h - 1)) + behind)
}
