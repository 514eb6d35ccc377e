// Byte by byte, from an ordinary state: no place is outside the memories, which saves the tests for that, and the four counts of pixels are one number.
ghost use Rattle.std.specs.Prelude.{◌≡◌, ◌+◌, ◌≤◌, drop, length};
ghost use Rattle.registers.specs.Reversed.{ordered, Reversing};
ghost use Rattle.display.specs.Display.{stored_of};
ghost use Rattle.display_bytes.specs.Lanes.{packed_of, unpacked_of, total, four_pixels, two_pixels, exchanged, none_below, Packed, Ordinary};
ghost use Rattle.display_bytes.specs.Stretch.{stretched, stretch_from, addressed, room_for};

use crate::Stretch;
use registers::{PixelCounts, Registers};

// Two pixels packed, by their four bits.
const TWO_PIXELS: [u64; 16] = [
    2,
    65537,
    4294967297,
    281474976710657,
    65537,
    131072,
    4295032832,
    281474976776192,
    4294967297,
    4295032832,
    8589934592,
    281479271677952,
    281474976710657,
    281474976776192,
    281479271677952,
    562949953421312,
];

// The highest bit of each of the four counts, which no count has by itself.
const GUARDS: u64 = 9223512776490647552;

// The table, to be lent: a constant with an index would be laid out anew at each byte.
fn two_pixels() -> [u64; 16]
    ensures { result ≡ two_pixels }
{
    TWO_PIXELS
}

// The four pixels of a byte.
fn four_pixels(two: &[u64; 16], byte: u8) -> u64
    requires { two.now ≡ two_pixels }
    ensures { result ≡ packed_of (four_pixels byte) }
{
    two[usize::from(byte % 16)] + two[usize::from(byte / 16)]
}

// The four counts as one number, sixteen bits to a value.
fn packed(pixels: PixelCounts) -> u64
    requires { total pixels ≤ 6767 }
    ensures { result ≡ packed_of pixels }
{
    u64::from(pixels.zeros)
        + 65536 * u64::from(pixels.ones)
        + 4294967296 * u64::from(pixels.twos)
        + 281474976710656 * u64::from(pixels.threes)
}

fn unpacked(sum: u64) -> PixelCounts
    ensures { result ≡ unpacked_of sum }
{
    PixelCounts {
        zeros: (sum % 65536) as u16,
        ones: (sum / 65536 % 65536) as u16,
        twos: (sum / 4294967296 % 65536) as u16,
        threes: (sum / 281474976710656) as u16,
    }
}

// The counts after byte `new` has taken the place of byte `old`, with the guards set: a count below 0 takes its own guard away.
fn exchanged(two: &[u64; 16], sum: u64, old: u8, new: u8) -> u64
    requires two_value { two.now ≡ two_pixels }
    requires packed { Packed sum }
    ensures { result ≡ exchanged (unpacked_of sum) old new }
{
    sum + GUARDS + four_pixels(two, new) - four_pixels(two, old)
}

// All four guards are there.
fn none_below(guarded: u64) -> bool
    ensures { result ≡ none_below guarded }
{
    (guarded / 32768 % 2 == 1)
        & (guarded / 2147483648 % 2 == 1)
        & (guarded / 140737488355328 % 2 == 1)
        & (guarded / 9223372036854775808 == 1)
}

fn ordered(reversed: &[u8; 256], data_order: u8, byte: u8) -> u8
    requires { Reversing reversed.now }
    ensures { result ≡ ordered data_order byte }
{
    if data_order == 1 {
        reversed[usize::from(byte)]
    } else {
        byte
    }
}

// As `display::stored`, by a table that is lent.
#[tactic(auto, unfolding(display::specs::Display::stored_of))]
fn stored(reversed: &[u8; 256], registers: Registers, byte: u8) -> u8
    requires { Reversing reversed.now }
    ensures { result ≡ stored_of registers byte }
{
    display::kept_in_bank(registers.y, ordered(reversed, registers.data_order, byte))
}

pub fn bytes(
    registers: Registers,
    pixels: PixelCounts,
    count: u64,
    memory: &mut [u8],
    writers: &mut [u64],
    events: &[u16],
    end: usize,
) -> Stretch
    requires end_value { end ≡ room_for count (length events.now) }
    requires ordinary { Ordinary registers pixels (length memory.old) (length writers.old) }
    ensures { stretched result.done (drop result.done events.now) (addressed registers result.x result.y) result.pixels
        memory.new writers.new (count + result.done)
        ≡ stretch_from 0 events.now registers pixels memory.old writers.old count }
{
    let reversed = registers::reversed::table();
    let two = two_pixels();
    let mut at = registers;
    let mut sum = packed(pixels);
    let mut number = count;
    for event in &events[..end] {
        let Ok(byte) = u8::try_from(*event) else {
            break;
        };
        let place = display::place(at);
        let new = stored(&reversed, at, byte);
        let old = display::kept_in_bank(at.y, memory[place]);
        let next = exchanged(&two, sum, old, new);
        if !none_below(next) {
            break;
        }
        sum = next - GUARDS;
        number += 1;
        memory[place] = new;
        writers[place] = number;
        at = display::moved_on(at);
    }
    Stretch {
        done: (number - count) as usize,
        x: at.x,
        y: at.y,
        pixels: unpacked(sum),
    }
}
