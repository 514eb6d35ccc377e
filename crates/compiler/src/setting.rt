// What a set does: the registers after it, and its command bytes.
ghost use Rattle.std.specs.Prelude.{◌≡◌, ◌≤◌, length, take};
ghost use Rattle.drawing.specs.Plain.{set_to};
ghost use Rattle.drawing.specs.Stream.{page_of, set_commands};
ghost use Rattle.compiler.specs.Writes.{set_length};

use instruction_table::encoding::{is_grey, row_byte, row_for};
use registers::Registers;

// That register alone; a grey register is also selected.
pub fn with_field(registers: Registers, field: u8, value: u8) -> Registers
    ensures { result ≡ set_to field value registers }
{
    if is_grey(field) {
        return registers.with(20, field - 21).with(field as usize, value);
    }
    registers.with(field as usize, value)
}

pub fn page_of(row: usize) -> u8
    ensures { result ≡ page_of row }
{
    instruction_table::table::page(row)
}

// The command bytes of a set, the first `count` of `bytes`.
// kept (rule): no heap, fixed memory: two, four or five bytes, lent as a slice of as many.
#[derive(Clone, Copy)]
pub struct Commands {
    pub bytes: [u16; 5],
    pub count: usize,
}

// Page return; the page command unless page 0; the row's byte, for a grey register after the row that selects it; back to page 0.
pub fn set_commands(field: u8, target: Registers) -> Commands
    ensures { (take result.count result.bytes ≡ set_commands field target) × (result.count ≤ length result.bytes) }
{
    if is_grey(field) {
        let select = row_byte(16, target);
        let level = row_byte(17, target);
        return Commands {
            bytes: [1, 11, select, level, 1],
            count: 5,
        };
    }
    let row = row_for(field as usize);
    let page = page_of(row);
    let byte = row_byte(row, target);
    if page == 0 {
        return Commands {
            bytes: [1, byte, 0, 0, 0],
            count: 2,
        };
    }
    let enter = 8 + page as u16;
    Commands {
        bytes: [1, enter, byte, 1, 0],
        count: 4,
    }
}

// How many commands a set has.
pub fn commands_count(field: u8) -> usize
    ensures { result ≡ set_length field }
{
    if is_grey(field) {
        return 5;
    }
    if page_of(row_for(field as usize)) == 0 {
        return 2;
    }
    4
}
