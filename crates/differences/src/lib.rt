// What differs at the ends of two captures: the cells whose byte or writer number differs, by bank, then column, then the registers; and what is
// printed of two captures, which may be refused.
#![tactic(auto)]

ghost use Rattle.std.specs.Prelude.{◌≡◌, ◌/◌, ◌%◌, length};
ghost use Rattle.refusals.specs.Numbers.{numbered, refused_by};
ghost use Rattle.registers.specs.Record.{values};
ghost use Rattle.registers.specs.Refusals.{◌then◌, lengths_refusal};
ghost use Rattle.print.specs.Chosen.{lines_of};
ghost use Rattle.print.specs.Printed.{output};
ghost use Rattle.print.specs.Prints.{Prints, written_of};
ghost use Rattle.differences.specs.Comparison.{comparison_call};
ghost use Rattle.differences.specs.Differences.{compared, cell_pair, register_pair, cells_that_differ, registers_that_differ};
ghost use Rattle.differences.specs.Differences.{cell_line, register_line, line_of_cells, line_of_registers, differences_of, differences_call};
ghost use Rattle.differences.specs.Sides.{side_of, IsWhole};

use capture::End;
use print::{Printout, Unprinted};
use refusals::Refusal;
use registers::{Registers, names};
use text::pieces::piece;

// What of a chip is compared: the values of its registers, in document 01's order, and its memories.
#[derive(Clone, Copy)]
struct Side<'a> {
    registers: [u8; 29],
    memory: &'a [u8],
    writers: &'a [u64],
}

// One cell's line.
fn cell(
    place: usize,
    first_byte: u8,
    second_byte: u8,
    first_event: u64,
    second_event: u64,
    out: &mut Printout,
)
    ensures { Prints out.old (cell_line (cell_pair (place % 101) (place / 101) first_byte second_byte first_event second_event))
        out.new }
{
    out.field((place % 101) as u64, b'\t');
    out.field((place / 101) as u64, b'\t');
    out.field(u64::from(first_byte), b'\t');
    out.field(u64::from(second_byte), b'\t');
    out.field(first_event, b'\t');
    out.field(second_event, b'\n');
}

// The line of a place, if the cell there differs.
fn cell_at(
    place: usize,
    first_byte: u8,
    second_byte: u8,
    first_event: u64,
    second_event: u64,
    out: &mut Printout,
)
    ensures { Prints out.old (line_of_cells place first_byte second_byte first_event second_event) out.new }
{
    if first_byte != second_byte || first_event != second_event {
        cell(
            place,
            first_byte,
            second_byte,
            first_event,
            second_event,
            out,
        );
    }
}

// The lines of all cells. Places rise bank by bank, and in a bank column by column.
fn cell_lines(first: Side, second: Side, out: &mut Printout)
    requires { IsWhole first × IsWhole second }
    ensures { Prints out.old (lines_of cell_line (cells_that_differ (side_of first.entry).cells (side_of second.entry).cells)) out.new }
{
    for place in 0..1717 {
        cell_at(
            place,
            first.memory[place],
            second.memory[place],
            first.writers[place],
            second.writers[place],
            out,
        );
    }
}

// The line of the register at that place of document 01's order.
fn register(place: usize, first: u8, second: u8, out: &mut Printout)
    ensures { Prints out.old (register_line (register_pair place first second)) out.new }
{
    let all = names::all();
    out.bytes(piece(&all, names::SEPARATOR, place));
    out.byte(b'\t');
    out.field(u64::from(first), b'\t');
    out.field(u64::from(second), b'\n');
}

// The same, if its values differ.
fn register_at(place: usize, first: u8, second: u8, out: &mut Printout)
    ensures { Prints out.old (line_of_registers place first second) out.new }
{
    if first != second {
        register(place, first, second, out);
    }
}

// The lines of all registers.
fn register_lines(first: Side, second: Side, out: &mut Printout)
    ensures { Prints out.old (lines_of register_line (registers_that_differ first.entry.registers second.entry.registers))
        out.new }
{
    for place in 0..29 {
        register_at(place, first.registers[place], second.registers[place], out);
    }
}

// The whole text.
fn all_lines(first: Side, second: Side, out: &mut Printout)
    requires { IsWhole first × IsWhole second }
    ensures { Prints out.old (differences_of (side_of first.entry) (side_of second.entry)) out.new }
{
    out.bytes(b"column\tbank\tfirst byte\tsecond byte\tfirst event\tsecond event\n");
    cell_lines(first, second, out);
    register_lines(first, second, out);
}

// 1: a memory of another length.
fn refusal(
    first_memory_len: usize,
    first_writers_len: usize,
    second_memory_len: usize,
    second_writers_len: usize,
) -> Result<(), Refusal>
    ensures { refused_by result
        ≡ lengths_refusal first_memory_len first_writers_len then lengths_refusal second_memory_len second_writers_len }
{
    registers::refusal::lengths(first_memory_len, first_writers_len)?;
    registers::refusal::lengths(second_memory_len, second_writers_len)
}

// What differs between two chips, from the start of `out` on.
pub fn differences(
    first: Registers,
    first_memory: &[u8],
    first_writers: &[u64],
    second: Registers,
    second_memory: &[u8],
    second_writers: &[u64],
    out: &mut [u8],
) -> Result<usize, Unprinted>
    ensures { output (written_of result) out.new
        ≡ differences_call (compared (values first) first_memory.now first_writers.now)
        (compared (values second) second_memory.now second_writers.now) out.old }
{
    refusal(
        first_memory.len(),
        first_writers.len(),
        second_memory.len(),
        second_writers.len(),
    )?;
    let first_registers = first.bytes();
    let second_registers = second.bytes();
    let first_side = Side {
        registers: first_registers,
        memory: first_memory,
        writers: first_writers,
    };
    let second_side = Side {
        registers: second_registers,
        memory: second_memory,
        writers: second_writers,
    };
    print::whole(|printout| all_lines(first_side, second_side, printout), out)
}

// What is printed of two captures that came to these ends and left these memories: where the first is bad, else where the second is, else what differs;
// from the start of `out` on.
pub fn comparison(
    first: Result<End, Refusal>,
    first_memory: &[u8],
    first_writers: &[u64],
    second: Result<End, Refusal>,
    second_memory: &[u8],
    second_writers: &[u64],
    out: &mut [u8],
) -> Result<usize, Unprinted>
    ensures { output (written_of result) out.new
        ≡ comparison_call (numbered first) first_memory.now first_writers.now
        (numbered second) second_memory.now second_writers.now out.old }
{
    refusal(
        first_memory.len(),
        first_writers.len(),
        second_memory.len(),
        second_writers.len(),
    )?;
    let End::Whole(first_chip, _) = first? else {
        return listing::refused(b"1\t", first, out);
    };
    let End::Whole(second_chip, _) = second? else {
        return listing::refused(b"2\t", second, out);
    };
    differences(
        first_chip.registers,
        first_memory,
        first_writers,
        second_chip.registers,
        second_memory,
        second_writers,
        out,
    )
}
