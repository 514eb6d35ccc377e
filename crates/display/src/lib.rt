// Display bytes: what is stored, where, how the address counter moves on, and what comes of the pixels by value.
#![tactic(auto)]

ghost use Rattle.std.specs.Prelude.{cond, ◌≡◌, set, Ok, Err};
ghost use Rattle.display.specs.Display.{kept, stored_of, column_of, place_of, next, next_on_wrap, next_address, pixels_fit, pixels_after};

use registers::entry::entry;
use registers::{PixelCounts, Registers};

// Bank 16 has six bits.
pub fn kept_in_bank(bank: u8, byte: u8) -> u8
    ensures { result ≡ kept bank byte }
{
    if bank == 16 { byte % 64 } else { byte }
}

// The swap comes first, then the six bits of bank 16.
#[tactic(auto, unfolding(crate::specs::Display::stored_of))]
pub fn stored(registers: Registers, byte: u8) -> u8
    ensures { result ≡ stored_of registers byte }
{
    kept_in_bank(
        registers.y,
        registers::reversed::ordered(registers.data_order, byte),
    )
}

// MX = 1 writes from the right. An allowed X is at most 100.
#[tactic(auto, unfolding(crate::specs::Display::column_of))]
pub fn column(registers: Registers) -> u8
    ensures { result ≡ column_of registers }
{
    if registers.mx == 1 {
        100u8.saturating_sub(registers.x)
    } else {
        registers.x
    }
}

#[tactic(auto, unfolding(crate::specs::Display::place_of))]
pub fn place(registers: Registers) -> usize
    ensures { result ≡ place_of registers }
{
    101 * usize::from(registers.y) + usize::from(column(registers))
}

fn following(n: u8, last: u8) -> u8
    ensures { result ≡ next n last }
{
    if n < last { n + 1 } else { 0 }
}

fn following_on_wrap(n: u8, last: u8, other: u8, other_last: u8) -> u8
    ensures { result ≡ next_on_wrap n last other other_last }
{
    if n < last {
        other
    } else {
        following(other, other_last)
    }
}

// V = 0 counts along a bank, V = 1 along a column.
#[tactic(auto, unfolding(crate::specs::Display::next_address))]
pub fn moved_on(registers: Registers) -> Registers
    ensures { result ≡ next_address registers }
{
    let Registers { x, y, .. } = registers;
    if registers.v == 1 {
        Registers {
            x: following_on_wrap(y, 16, x, 100),
            y: following(y, 16),
            ..registers
        }
    } else {
        Registers {
            x: following(x, 100),
            y: following_on_wrap(x, 100, y, 16),
            ..registers
        }
    }
}

// Past the end of a memory nothing is written: that can only be where it is not 1,717 long, or the address not allowed.
fn store<T: Copy>(memory: &mut [T], at: usize, value: T)
    ensures { memory.new ≡ set memory.old at value }
{
    if at < memory.len() {
        memory[at] = value;
    }
}

// Stores a display byte with the event's number, and hands back the registers with the address moved on.
pub fn display_byte(
    registers: Registers,
    memory: &mut [u8],
    writers: &mut [u64],
    byte: u8,
    number: u64,
) -> Registers
    ensures value { result ≡ next_address registers }
    ensures memory_after { memory.new ≡ set memory.old (place_of registers) (stored_of registers byte) }
    ensures writers_after { writers.new ≡ set writers.old (place_of registers) number }
{
    let at = place(registers);
    store(memory, at, stored(registers, byte));
    store(writers, at, number);
    moved_on(registers)
}

// Whether every count of pixels stays from 0 to 6,767 at this display byte: the byte that stands at the address leaves, the byte as it is stored joins.
// A bus asks this before it lets the chip take the byte.
#[tactic(auto, unfolding(crate::specs::Display::pixels_fit))]
pub fn pixels_fit(registers: Registers, pixels: PixelCounts, memory: &[u8], byte: u8) -> bool
    ensures { result ≡ pixels_fit registers pixels memory.now byte }
{
    let at = place(registers);
    pixel_counts::mending::mendable(pixels, at, entry(memory, at), stored(registers, byte))
}

// The same, and the counts after it, as `pixel_counts` gives them. They are made before the byte is stored.
#[tactic(auto, unfolding(crate::specs::Display::pixels_fit, crate::specs::Display::pixels_after))]
pub fn mend(
    registers: Registers,
    pixels: PixelCounts,
    memory: &[u8],
    byte: u8,
) -> Result<PixelCounts, PixelCounts>
    ensures { result ≡ cond (pixels_fit registers pixels memory.now byte) (Ok (pixels_after registers pixels memory.now byte))
        (Err (pixels_after registers pixels memory.now byte)) }
{
    let at = place(registers);
    pixel_counts::mending::mend(pixels, at, entry(memory, at), stored(registers, byte))
}
