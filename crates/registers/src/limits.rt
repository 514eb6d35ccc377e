// The bit table as data: how wide each register is, the largest value that it takes and its reset value, by the register's
// place in document 01's order. Past the last register each answers 0.
ghost use Rattle.std.specs.Prelude.{◌≡◌, get_or};
ghost use Rattle.registers.specs.Record.{limits, resets, reset_registers};
ghost use Rattle.registers.specs.Data.{widths};

use crate::Registers;
use crate::entry::entry;

// How many registers there are.
pub const REGISTERS: usize = 29;

const WIDTHS: [u8; 29] = [
    3, 1, 1, 1, 1, 1, 1, 1, 1, 7, 5, 3, 1, 3, 1, 1, 3, 3, 1, 7, 2, 6, 6, 6, 6, 1, 1, 1, 1,
];

const LIMITS: [u8; 29] = [
    4, 1, 1, 1, 1, 1, 1, 1, 1, 100, 16, 7, 1, 7, 1, 1, 7, 7, 1, 127, 3, 63, 63, 63, 63, 1, 1, 1, 1,
];

const RESETS: [u8; 29] = [
    0, 0, 1, 0, 0, 0, 0, 0, 0, 0, 0, 0, 0, 0, 0, 0, 0, 0, 0, 0, 0, 0, 0, 0, 0, 1, 0, 0, 0,
];

pub fn width(register: usize) -> u8
    ensures { result ≡ get_or widths register 0 }
{
    entry(&WIDTHS, register)
}

pub fn limit(register: usize) -> u8
    ensures { result ≡ get_or limits register 0 }
{
    entry(&LIMITS, register)
}

pub fn reset(register: usize) -> u8
    ensures { result ≡ get_or resets register 0 }
{
    entry(&RESETS, register)
}

// All limits.
pub fn limits() -> [u8; 29]
    ensures { result ≡ limits }
{
    LIMITS
}

impl Registers {
    // The reset values of the bit table.
    pub fn reset() -> Self
        ensures { result ≡ reset_registers }
    {
        Self::of_bytes(RESETS)
    }
}
