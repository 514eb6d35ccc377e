// One line of a list: the registers after it, how many events it takes, and the events themselves.
ghost use Rattle.std.specs.Prelude.{◌≡◌, ◌+◌, ◌≤◌, length};
ghost use Rattle.lists.specs.Syntax.{Valid};
ghost use Rattle.drawing.specs.Plain.{registers_after};
ghost use Rattle.drawing.specs.Stream.{line_events};
ghost use Rattle.compiler.specs.Writes.{Wrote, Tracked, counts_of};

use crate::{message, runs, setting};
use lists::Line;
use registers::Registers;

// How many events there are, and how many of them are bytes.
#[derive(Clone, Copy)]
pub struct Counts {
    pub events: usize,
    pub bytes: usize,
}

// The registers that the next line finds.
pub fn registers_after(line: Line, registers: Registers) -> Registers
    ensures { result ≡ registers_after line registers }
{
    match line {
        Line::Fill { .. } => registers,
        Line::Set { field, value } => setting::with_field(registers, field, value),
    }
}

// How many events a line takes.
pub fn count(line: Line, registers: Registers, pins: u8) -> Counts
    requires { Valid line × Tracked registers × (pins ≤ 3) }
    ensures { result ≡ counts_of (line_events pins line registers) }
{
    match line {
        Line::Fill {
            first_column,
            last_column,
            first_bank,
            last_bank,
            byte,
        } => runs::count(
            registers,
            first_column,
            last_column,
            first_bank,
            last_bank,
            byte,
        ),
        Line::Set { field, .. } => {
            let words = setting::commands_count(field) * 2;
            Counts {
                events: words + 3,
                bytes: words + 1,
            }
        }
    }
}

// The events of a line.
pub fn write(out: &mut [u16], at: usize, line: Line, registers: Registers, pins: u8) -> usize
    requires { Valid line × (at + length (line_events pins line registers) ≤ length out.old) }
    ensures { Wrote out.old at (line_events pins line registers) out.new result }
{
    match line {
        Line::Fill {
            first_column,
            last_column,
            first_bank,
            last_bank,
            byte,
        } => runs::write(
            out,
            at,
            pins,
            registers,
            first_column,
            last_column,
            first_bank,
            last_bank,
            byte,
        ),
        Line::Set { field, value } => {
            let target = setting::with_field(registers, field, value);
            message::set(out, at, pins, field, target)
        }
    }
}
