// A chip's record in words, a line each, name, tab, value; and what is printed of a capture that was followed to its end.
#![tactic(auto)]

ghost use Rattle.std.specs.Prelude.{◌≡◌};
ghost use Rattle.refusals.specs.Numbers.{numbered};
ghost use Rattle.registers.specs.Refusals.{record_refusal};
ghost use Rattle.print.specs.Printed.{output, whole_text};
ghost use Rattle.print.specs.Prints.{Prints, written_of};
ghost use Rattle.chip_text.specs.ChipText.{one_awaited, endless, phase_words, phase_line};
ghost use Rattle.chip_text.specs.ChipText.{register_line, register_lines, record_lines, bus_lines, pixel_lines, chip_text, chip_text_call};

use capture::End;
use capture_trace::tally::Tally;
use print::{Printout, Unprinted};
use refusals::Refusal;
use registers::{Chip, Phase, PixelCounts, names};
use text::pieces::piece;

// The register at that place of document 01's order.
fn register(place: usize, value: u8, out: &mut Printout)
    ensures { Prints out.old (register_line place value) out.new }
{
    let all = names::all();
    out.named_line(piece(&all, names::SEPARATOR, place), u64::from(value));
}

// All registers, by their values in that order.
fn register_lines(values: &[u8; 29], out: &mut Printout)
    ensures { Prints out.old (register_lines values.now) out.new }
{
    for place in 0..29 {
        register(place, values[place], out);
    }
}

fn one_awaited(rs: bool) -> &'static [u8]
    ensures { result.now ≡ one_awaited rs }
{
    if rs {
        b"one display byte awaited"
    } else {
        b"one command awaited"
    }
}

fn endless(rs: bool) -> &'static [u8]
    ensures { result.now ≡ endless rs }
{
    if rs {
        b"endless display bytes"
    } else {
        b"endless commands"
    }
}

#[tactic(auto, unfolding(crate::specs::ChipText::phase_words))]
fn phase_words(phase: Phase) -> &'static [u8]
    ensures { result.now ≡ phase_words phase }
{
    match phase {
        Phase::Idle => b"idle",
        Phase::AddressAwaited => b"address awaited",
        Phase::Ignoring => b"ignoring",
        Phase::ControlAwaited => b"control byte awaited",
        Phase::OneByte(rs) => one_awaited(rs),
        Phase::EndlessBytes(rs) => endless(rs),
        Phase::Reading => b"reading",
        Phase::ReadEnded => b"read ended",
    }
}

fn phase_line(phase: Phase, out: &mut Printout)
    ensures { Prints out.old (phase_line phase) out.new }
{
    out.bytes(b"phase\t");
    out.bytes(phase_words(phase));
    out.byte(b'\n');
}

// The registers, and what the record has beside them.
fn record_lines(chip: Chip, out: &mut Printout)
    ensures { Prints out.old (record_lines chip) out.new }
{
    register_lines(&chip.registers.bytes(), out);
    out.named_line(b"pins", u64::from(chip.pins));
    out.named_line(b"status", u64::from(chip.status));
    out.named_line(b"last rs", u64::from(chip.last_rs));
}

// Where the bus stands, and what it has seen.
fn bus_lines(chip: Chip, count: u64, tally: Tally, out: &mut Printout)
    ensures { Prints out.old (bus_lines chip count tally) out.new }
{
    phase_line(chip.phase, out);
    out.named_line(b"count", count);
    out.named_line(b"acknowledged", tally.acknowledged);
    out.named_line(b"not acknowledged", tally.not_acknowledged);
}

// How many pixels have each value.
fn pixel_lines(pixels: PixelCounts, out: &mut Printout)
    ensures { Prints out.old (pixel_lines pixels) out.new }
{
    out.named_line(b"pixels 0", u64::from(pixels.zeros));
    out.named_line(b"pixels 1", u64::from(pixels.ones));
    out.named_line(b"pixels 2", u64::from(pixels.twos));
    out.named_line(b"pixels 3", u64::from(pixels.threes));
}

// The whole text.
fn lines(chip: Chip, count: u64, tally: Tally, out: &mut Printout)
    ensures { Prints out.old (chip_text chip count tally) out.new }
{
    record_lines(chip, out);
    bus_lines(chip, count, tally, out);
    pixel_lines(chip.pixels, out);
}

// The whole text, if there is room for it. 2: a record that is not allowed.
fn text(chip: Chip, count: u64, tally: Tally, out: &mut [u8]) -> Result<usize, Unprinted>
    ensures { output (written_of result) out.new ≡ whole_text (record_refusal chip) (chip_text chip count tally) out.old }
{
    registers::refusal::record(chip)?;
    print::whole(|printout| lines(chip, count, tally, printout), out)
}

// What is printed of a capture that came to `end` and was tallied so: the chip's record and the count, or the line where it is bad, from the start of `out` on.
pub fn chip_text(
    end: Result<End, Refusal>,
    tally: Tally,
    out: &mut [u8],
) -> Result<usize, Unprinted>
    ensures { output (written_of result) out.new ≡ chip_text_call (numbered end) tally out.old }
{
    match end? {
        End::Whole(chip, count) => text(chip, count, tally, out),
        _ => listing::refused(b"", end, out),
    }
}
