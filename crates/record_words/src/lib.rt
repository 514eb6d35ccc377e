// A chip's record as a host in C holds it, in words of 64 bits: whether they stand for a record, and both ways across.
#![tactic(auto)]

ghost use Rattle.std.specs.Prelude.{◌≡◌, true, ◌++◌, length, take, drop};
ghost use Rattle.registers.specs.Record.{within, values};
ghost use Rattle.record_words.specs.Words.{record_length, word_limits, stands_for, pixels_of, chip_of, words_of, read_of, stored};

use registers::{Chip, PixelCounts, Registers};

mod phase;

// The registers come first, then pins, status byte, last RS, phase, the phase's RS, the pixels of value 0, 1, 2 and 3.
pub const WORDS: usize = 38;

// The largest value of each.
const LIMITS: [u64; 38] = [
    4, 1, 1, 1, 1, 1, 1, 1, 1, 100, 16, 7, 1, 7, 1, 1, 7, 7, 1, 127, 3, 63, 63, 63, 63, 1, 1, 1, 1,
    3, 255, 1, 7, 1, 6767, 6767, 6767, 6767,
];

fn within_limits(words: &[u64]) -> bool
    requires { length words.now ≡ record_length }
    ensures { result ≡ within true words.now word_limits }
{
    words.iter().zip(&LIMITS).all(|(word, limit)| word <= limit)
}

// As many words as a record has, within their limits; the phase's RS is 0 but in phases 4 and 5.
fn stand_for_a_chip(words: &[u64]) -> bool
    ensures { result ≡ stands_for words.now }
{
    if words.len() != WORDS {
        return false;
    }
    within_limits(words) & ((words[33] == 0) | ((words[32] == 4) | (words[32] == 5)))
}

#[tactic(auto, using(crate::proofs::Stands::stands))]
fn register_bytes(words: &[u64]) -> [u8; 29]
    requires { stands_for words.now ≡ true }
    ensures { result ≡ take 29 words.now }
{
    let mut bytes = [0; 29];
    for register in 0..29 {
        bytes[register] = words[register] as u8;
    }
    bytes
}

#[tactic(auto, using(crate::proofs::Stands::stands))]
fn pixels(words: &[u64]) -> PixelCounts
    requires { stands_for words.now ≡ true }
    ensures { result ≡ pixels_of words.now }
{
    PixelCounts {
        zeros: words[34] as u16,
        ones: words[35] as u16,
        twos: words[36] as u16,
        threes: words[37] as u16,
    }
}

#[tactic(auto, using(crate::proofs::Stands::stands))]
fn chip(words: &[u64]) -> Chip
    requires { stands_for words.now ≡ true }
    ensures { result ≡ chip_of words.now }
{
    Chip {
        registers: Registers::of_bytes(register_bytes(words)),
        pins: words[29] as u8,
        status: words[30] as u8,
        last_rs: words[31] == 1,
        phase: phase::of(words[32], words[33] == 1),
        pixels: pixels(words),
    }
}

// The record that the words stand for, if they stand for one.
#[tactic(auto, unfolding(crate::specs::Words::read_of))]
pub fn read_record(words: &[u64]) -> Option<Chip>
    ensures { result ≡ read_of words.now }
{
    if stand_for_a_chip(words) {
        Some(chip(words))
    } else {
        None
    }
}

// Word by word: an array of words made of the bytes, and copied, takes several times as long and a call of the C library's.
fn write_registers(registers: Registers, words: &mut [u64])
    requires { length words.old ≡ record_length }
    ensures { words.new ≡ values registers ++ drop 29 words.old }
{
    let bytes = registers.bytes();
    for register in 0..29 {
        words[register] = u64::from(bytes[register]);
    }
}

fn write_all(chip: Chip, words: &mut [u64])
    requires { length words.old ≡ record_length }
    ensures { words.new ≡ words_of chip }
{
    write_registers(chip.registers, words);
    words[29] = u64::from(chip.pins);
    words[30] = u64::from(chip.status);
    words[31] = u64::from(chip.last_rs);
    words[32] = phase::number(chip.phase);
    words[33] = u64::from(chip.phase.rs());
    words[34] = u64::from(chip.pixels.zeros);
    words[35] = u64::from(chip.pixels.ones);
    words[36] = u64::from(chip.pixels.twos);
    words[37] = u64::from(chip.pixels.threes);
}

// Writes the record's words into the host's buffer, if it has a record's length.
#[tactic(auto, unfolding(crate::specs::Words::stored))]
pub fn write_record(chip: Chip, words: &mut [u64])
    ensures { words.new ≡ stored chip words.old }
{
    if words.len() == WORDS {
        write_all(chip, words);
    }
}
