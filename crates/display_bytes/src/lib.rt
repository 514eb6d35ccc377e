// Display bytes one after the other: a run takes a stretch of them at once.
#![tactic(auto)]

ghost use Rattle.std.specs.Prelude.{◌≡◌, ◌+◌, drop, length};
ghost use Rattle.display_bytes.specs.Lanes.{is_ordinary};
ghost use Rattle.display_bytes.specs.Stretch.{stretched, stretch_from, addressed, room_for};

use registers::{PixelCounts, Registers};

mod packed;
mod plain;

// How many events were done, and the address and the pixels by value then.
#[derive(Clone, Copy, Debug, PartialEq, Eq, Hash)]
pub struct Stretch {
    pub done: usize,
    pub x: u8,
    pub y: u8,
    pub pixels: PixelCounts,
}

// How many of so many events get a number: the count is not full before them.
pub fn room(count: u64, events: usize) -> usize
    ensures { result ≡ room_for count events }
{
    let left = u64::MAX - count;
    if left < events as u64 {
        left as usize
    } else {
        events
    }
}

// Whether the packed counts will do: every place is inside the memories, and no more pixels are counted than there are.
fn is_ordinary(registers: Registers, pixels: PixelCounts, memory: usize, writers: usize) -> bool
    ensures { result ≡ is_ordinary registers pixels memory writers }
{
    (registers.x <= 100)
        & (registers.y <= 16)
        & (memory == 1717)
        & (writers == 1717)
        & (u32::from(pixels.zeros)
            + u32::from(pixels.ones)
            + u32::from(pixels.twos)
            + u32::from(pixels.threes)
            <= 6767)
}

// Events in order, as far as they are bytes that neither a full count nor the pixels by value refuse. The caller knows that they come as display data.
pub fn take(
    registers: Registers,
    pixels: PixelCounts,
    count: u64,
    memory: &mut [u8],
    writers: &mut [u64],
    events: &[u16],
) -> Stretch
    ensures { stretched result.done (drop result.done events.now) (addressed registers result.x result.y) result.pixels
        memory.new writers.new (count + result.done)
        ≡ stretch_from 0 events.now registers pixels memory.old writers.old count }
{
    let end = room(count, events.len());
    if is_ordinary(registers, pixels, memory.len(), writers.len()) {
        return packed::bytes(registers, pixels, count, memory, writers, events, end);
    }
    plain::bytes(registers, pixels, count, memory, writers, events, end)
}
