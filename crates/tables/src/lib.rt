// The table of a set of setups, and a written table handed out.
#![tactic(auto)]

ghost use Rattle.std.specs.Prelude.{◌≡◌};
ghost use Rattle.tables.specs.Writing.{front_of};

// The front of the out memory: its first bytes, as many as asked for, or none if it has fewer.
pub fn front(out: &mut [u8], bytes: usize) -> &mut [u8]
    ensures { result.now ≡ front_of bytes out.old }
{
    let room = out.len();
    if bytes <= room {
        &mut out[..bytes]
    } else {
        &mut out[..0]
    }
}
