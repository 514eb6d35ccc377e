// The message of a set, written into a buffer that has room for it.
ghost use Rattle.std.specs.Prelude.{[], ◌+◌, ◌*◌, ◌≤◌, length};
ghost use Rattle.chip.specs.Plays.{singles, message};
ghost use Rattle.drawing.specs.Stream.{set_commands};
ghost use Rattle.compiler.specs.Writes.{Wrote};

use crate::{emit, setting};
use registers::Registers;

// Command bytes, each after its own control byte.
fn commands(out: &mut [u16], at: usize, bytes: &[u16]) -> usize
    requires { at + 2 * length bytes.now ≤ length out.old }
    ensures { Wrote out.old at (singles bytes.now []) out.new result }
{
    let mut here = at;
    for byte in bytes {
        here = emit::pair(out, here, 128, *byte);
    }
    here
}

// START, address, the commands of a set, STOP.
pub fn set(out: &mut [u16], at: usize, pins: u8, field: u8, target: Registers) -> usize
    requires { at + (3 + 2 * length (set_commands field target)) ≤ length out.old }
    ensures { Wrote out.old at (message pins (set_commands field target)) out.new result }
{
    let asked = setting::set_commands(field, target);
    let bytes = asked.bytes;
    let started = emit::pair(out, at, 256, emit::write_address(pins));
    let commanded = commands(out, started, &bytes[..asked.count]);
    emit::put(out, commanded, 257)
}
