// A command byte: the fields of its row, by name and number.
ghost use Rattle.std.specs.Prelude.{◌≡◌, ◌%◌, ◌^◌, get_or};
ghost use Rattle.registers.specs.Data.{part_lows, part_widths, place_of};
ghost use Rattle.registers.specs.Record.{values};
ghost use Rattle.registers.specs.Table.{rows, no_row, above};
ghost use Rattle.print.specs.Prints.{Prints};
ghost use Rattle.event_words.specs.Words.{fields_words, row_words, command_words};
ghost use Rattle.event_words.specs.Fields.{named_field, field_at};

use instruction_table::table::{PARTS, SELECTED, part_low, part_row, part_target, part_width};
use print::Printout;
use registers::{Registers, names};
use text::pieces::piece;

// The number in a part's bits.
fn value(part: usize, byte: u8) -> u8
    ensures { result ≡ above (get_or part_lows part 0) byte % 2 ^ get_or part_widths part 0 }
{
    (byte >> part_low(part)) % (1u8 << part_width(part))
}

// The register that a target stands for: the grey one that GR selects has a number of its own.
fn place(target: u8, registers: Registers) -> usize
    ensures { result ≡ place_of target (values registers) }
{
    if target == SELECTED {
        21 + usize::from(registers.gr % 4)
    } else {
        usize::from(target)
    }
}

fn field(place: usize, value: u8, out: &mut Printout)
    ensures { Prints out.old (named_field place value) out.new }
{
    let all = names::all();
    out.byte(b' ');
    out.bytes(piece(&all, names::SEPARATOR, place));
    out.byte(b' ');
    out.decimal(u64::from(value));
}

// A part, if it is one of the row.
fn field_at(part: usize, row: usize, registers: Registers, byte: u8, out: &mut Printout)
    ensures { Prints out.old (field_at registers byte row part) out.new }
{
    if usize::from(part_row(part)) == row {
        let place = place(part_target(part), registers);
        field(place, value(part, byte), out);
    }
}

// The table has the parts of a row from the high end.
fn fields(row: usize, registers: Registers, byte: u8, out: &mut Printout)
    ensures { Prints out.old (fields_words registers byte (get_or rows row no_row).parts) out.new }
{
    for part in 0..PARTS {
        field_at(part, row, registers, byte, out);
    }
}

// Rows 0, 1 and 20 set no register that their bits name.
fn row_words(row: usize, registers: Registers, byte: u8, out: &mut Printout)
    ensures { Prints out.old (row_words registers byte row) out.new }
{
    match row {
        0 => out.bytes(b" nop"),
        1 => out.bytes(b" page return"),
        20 => out.bytes(b" row block swap"),
        _ => fields(row, registers, byte, out),
    }
}

pub fn words(registers: Registers, byte: u8, out: &mut Printout)
    ensures { Prints out.old (command_words registers byte) out.new }
{
    out.bytes(b"command");
    row_words(row_search::row_at(registers.h, byte), registers, byte, out);
}
