// The byte by which a row says what the registers hold: the other way round of the row methods.
ghost use Rattle.std.specs.Prelude.{◌≡◌, get_or};
ghost use Rattle.registers.specs.Data.{place_of, share_of, byte_of};
ghost use Rattle.registers.specs.Encode.{row_byte, row_for, is_grey};
ghost use Rattle.registers.specs.Table.{rows, no_row};

use crate::table::{PARTS, ROWS, SELECTED, code, part_low, part_row, part_target};
use registers::Registers;
use registers::entry::entry;

// The row that sets each register; X and Y have none that sets every value, and 21 is no row.
const ROW_FOR: [usize; 29] = [
    1, 3, 3, 3, 6, 6, 7, 7, 7, 21, 21, 8, 9, 10, 11, 11, 12, 13, 14, 15, 16, 17, 17, 17, 17, 18,
    18, 19, 19,
];

// One of the four grey registers.
pub fn is_grey(register: u8) -> bool
    ensures { result ≡ is_grey register }
{
    (21..=24).contains(&register)
}

// The row that sets the register; ROWS where none does.
pub fn row_for(register: usize) -> usize
    ensures { result ≡ row_for register }
{
    if 29 <= register {
        return ROWS;
    }
    ROW_FOR[register]
}

// The register that a target stands for; one that the record does not hold is past the last.
fn place_of(target: u8, values: &[u8]) -> usize
    ensures { result ≡ place_of target values.now }
{
    if target == SELECTED {
        return 21 + usize::from(entry(values, 20) % 4);
    }
    usize::from(target)
}

// What a part adds to the byte of a row: nothing, if it is a part of another.
fn share(values: &[u8], row: usize, part: usize) -> u16
    ensures { result ≡ share_of values.now row part }
{
    if usize::from(part_row(part)) != row {
        return 0;
    }
    let place = place_of(part_target(part), values);
    u16::from(entry(values, place)) << part_low(part)
}

fn byte_of(values: &[u8], row: usize) -> u16
    ensures { result ≡ byte_of values.now row }
{
    let mut sum = u16::from(code(row));
    for part in 0..PARTS {
        sum += share(values, row, part);
    }
    sum
}

pub fn row_byte(row: usize, registers: Registers) -> u16
    ensures { result ≡ row_byte (get_or rows row no_row) registers }
{
    byte_of(&registers.bytes(), row)
}
