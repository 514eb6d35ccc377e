// The pulses of the four frames that build a grey level: of a pixel, and of a whole row of the glass. The chip and its memory are only
// looked at.
#![tactic(auto)]

ghost use Rattle.std.specs.Prelude.{[], ◌∷◌, Ok, ◌≡◌};
ghost use Rattle.print.specs.Prints.{Prints};
ghost use Rattle.refusals.specs.Numbers.{numbered, refused_by};
ghost use Rattle.pulses.specs.Pulse.{pulse, pulses_for, pulses_of};
ghost use Rattle.pulses.specs.Row.{bytes_for, buffer_refusal, row_refusal, pulse_row, row_of};

use crate::answer::Pulses;
use glass::answer::Shown;
use print::Printout;
use refusals::Refusal;
use registers::Chip;
use registers::entry::entry;

pub mod answer;

// What stands in a row for a pixel that gets no pulses: more than any pulse.
const DARK: u8 = 254;

const UNDRIVEN: u8 = 255;

// 101 pixels of four bytes.
const ROW_LEN: usize = 404;

// What frame k of the four gets of level g. As the difference of two whole parts it gives a later frame what an earlier one lost.
fn pulse(level: u8, frame: u8) -> u8
    ensures { result ≡ pulse level frame }
{
    let g = u16::from(level);
    let k = u16::from(frame);
    ((k + 1) * g / 4 - k * g / 4) as u8
}

fn of_shown(shown: Shown) -> Pulses
    ensures { Ok result ≡ pulses_for (Ok shown) }
{
    match shown {
        Shown::Level(level) => Pulses::Lit(
            pulse(level, 0),
            pulse(level, 1),
            pulse(level, 2),
            pulse(level, 3),
        ),
        Shown::Dark => Pulses::Dark,
        Shown::Undriven => Pulses::Undriven,
    }
}

// The pulses that the pixel at a row and column of the glass gets in the four frames.
pub fn of_pixel(chip: Chip, memory: &[u8], row: usize, column: usize) -> Result<Pulses, Refusal>
    ensures { numbered result ≡ pulses_of chip memory.now row column }
{
    let shown = glass::glass(chip, memory, row, column)?;
    Ok(of_shown(shown))
}

// A pixel's four bytes.
fn write_pixel(pulses: Pulses, out: &mut Printout)
    ensures { Prints out.old (bytes_for (Ok pulses)) out.new }
{
    match pulses {
        Pulses::Lit(first, second, third, fourth) => out.bytes(&[first, second, third, fourth]),
        Pulses::Dark => out.bytes(&[DARK; 4]),
        Pulses::Undriven => out.bytes(&[UNDRIVEN; 4]),
    }
}

// A row buffer of another length.
fn of_length(out_len: usize) -> Result<(), Refusal>
    ensures { refused_by result ≡ buffer_refusal out_len }
{
    if out_len == ROW_LEN {
        Ok(())
    } else {
        Err(Refusal::RowLength)
    }
}

// The glass is asked for column 0, which every row has.
#[tactic(auto, unfolding(crate::specs::Row::row_refusal))]
fn refusal(chip: Chip, memory_len: usize, row: usize, out_len: usize) -> Result<(), Refusal>
    ensures { refused_by result ≡ row_refusal chip memory_len row out_len }
{
    glass::refusal::of_glass(chip, memory_len, row, 0)?;
    of_length(out_len)
}

// The pulses of a whole row of the glass into `out`, the pixel of column c at 4c to 4c + 3.
#[tactic(auto, using(crate::proofs::CodeWays::row_refused))]
pub fn of_row(chip: Chip, memory: &[u8], row: usize, out: &mut [u8]) -> Result<(), Refusal>
    ensures { pulse_row (refused_by result) out.new ≡ row_of chip memory.now row out.old }
{
    refusal(chip, memory.len(), row, out.len())?;
    // No pixel of such a row is refused, so that the glass need not test that of each.
    let ram = glass::pixel::ram_row(chip.registers.my, row);
    let mut printed = Printout { out, at: 0 };
    for column in 0..101 {
        let byte = entry(memory, 101 * (ram / 4) + column);
        let shown = glass::pixel::shown(chip.registers, ram, byte);
        write_pixel(of_shown(shown), &mut printed);
    }
    Ok(())
}
