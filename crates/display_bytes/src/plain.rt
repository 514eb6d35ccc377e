// Byte by byte, from any registers, pixels by value and memories.
ghost use Rattle.std.specs.Prelude.{◌≡◌, ◌+◌, drop, length};
ghost use Rattle.display_bytes.specs.Stretch.{stretched, stretch_from, addressed, room_for};

use crate::Stretch;
use registers::{PixelCounts, Registers};

fn ended(done: usize, registers: Registers, pixels: PixelCounts) -> Stretch
    ensures done_value { result.done ≡ done }
    ensures x_value { result.x ≡ registers.x }
    ensures y_value { result.y ≡ registers.y }
    ensures pixels_value { result.pixels ≡ pixels }
{
    Stretch {
        done,
        x: registers.x,
        y: registers.y,
        pixels,
    }
}

pub fn bytes(
    registers: Registers,
    pixels: PixelCounts,
    count: u64,
    memory: &mut [u8],
    writers: &mut [u64],
    events: &[u16],
    end: usize,
) -> Stretch
    requires { end ≡ room_for count (length events.now) }
    ensures { stretched result.done (drop result.done events.now) (addressed registers result.x result.y) result.pixels
        memory.new writers.new (count + result.done)
        ≡ stretch_from 0 events.now registers pixels memory.old writers.old count }
{
    let mut at = registers;
    let mut shown = pixels;
    let mut number = count;
    for (done, event) in events[..end].iter().enumerate() {
        let Ok(byte) = u8::try_from(*event) else {
            return ended(done, at, shown);
        };
        let Ok(mended) = display::mend(at, shown, memory, byte) else {
            return ended(done, at, shown);
        };
        shown = mended;
        number += 1;
        at = display::display_byte(at, memory, writers, byte, number);
    }
    ended(end, at, shown)
}
