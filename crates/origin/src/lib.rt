// The crew's own question: a pixel of the glass is pointed at, and what is told is where it stands and which event wrote it.
#![tactic(auto)]

ghost use Rattle.std.specs.Prelude.{◌≡◌, ◌<◌, length};
ghost use Rattle.refusals.specs.Numbers.{numbered};
ghost use Rattle.glass.specs.When.{Told};
ghost use Rattle.print.specs.Printed.{decimal_of, output, whole_text};
ghost use Rattle.print.specs.Prints.{Prints, written_of};
ghost use Rattle.origin.specs.Origin.{line_of, origin_at, shown_text, pixel_lines, cell_lines, byte_lines, origin_text};
ghost use Rattle.origin.specs.Call.{origin_call, origin_text_call};

use capture::End;
use glass::answer::Shown;
use print::{Printout, Unprinted};
use refusals::Refusal;
use registers::Chip;

// A pixel of the glass, the place of the memories that it shows, and what stands there. Bank and column of the cell follow from the place, the line of
// the capture from the event.
#[derive(Clone, Copy, Debug, PartialEq, Eq, Hash)]
pub struct Origin {
    pub row: usize,
    pub column: usize,
    pub shows: Shown,
    pub ram: usize,
    pub place: usize,
    pub byte: u8,
    pub value: u8,
    pub event: u64,
}

// What is told of a pixel that stands at this place. The two bits are those of the RAM row, which is the glass's own row only where MY = 0.
fn origin_at(
    chip: Chip,
    memory: &[u8],
    writers: &[u64],
    row: usize,
    column: usize,
    place: usize,
) -> Origin
    requires { (place < length memory.now) × (place < length writers.now) }
    ensures { result ≡ origin_at chip memory.now writers.now row column place }
{
    let ram = glass::pixel::ram_row(chip.registers.my, row);
    let byte = memory[place];
    Origin {
        row,
        column,
        shows: glass::pixel::shown(chip.registers, ram, byte),
        ram,
        place,
        byte,
        value: glass::pixel::value_in(byte, ram),
        event: writers[place],
    }
}

// What is shown, in words.
fn shown_words(shows: Shown, out: &mut Printout)
    ensures { Prints out.old (shown_text shows) out.new }
{
    match shows {
        Shown::Dark => out.bytes(b"dark"),
        Shown::Undriven => out.bytes(b"undriven"),
        Shown::Level(level) => {
            out.bytes(b"level ");
            out.decimal(u64::from(level));
        }
    }
}

// The line of the capture in which an event stands: the pins have the first. It may be past the largest u64.
fn line_number(event: u64, out: &mut Printout)
    ensures { Prints out.old (decimal_of (line_of event)) out.new }
{
    if event == 0 {
        out.decimal(0);
    } else {
        out.decimal_plus(event, 1);
    }
}

// The pixel: its row and column, and what it shows.
fn pixel_lines(origin: Origin, out: &mut Printout)
    ensures { Prints out.old (pixel_lines origin) out.new }
{
    out.named_line(b"row", origin.row as u64);
    out.named_line(b"column", origin.column as u64);
    out.bytes(b"shows\t");
    shown_words(origin.shows, out);
    out.byte(b'\n');
}

// The cell: its RAM row, bank, column and place.
fn cell_lines(origin: Origin, out: &mut Printout)
    ensures { Prints out.old (cell_lines origin) out.new }
{
    let place = origin.place as u64;
    out.named_line(b"ram row", origin.ram as u64);
    out.named_line(b"bank", place / 101);
    out.named_line(b"cell column", place % 101);
    out.named_line(b"place", place);
}

// What stands there: the byte, the pixel's two bits of it, and the event that wrote it, with its line.
fn byte_lines(origin: Origin, out: &mut Printout)
    ensures { Prints out.old (byte_lines origin) out.new }
{
    out.named_line(b"byte", u64::from(origin.byte));
    out.named_line(b"value", u64::from(origin.value));
    out.named_line(b"event", origin.event);
    out.bytes(b"line\t");
    line_number(origin.event, out);
    out.byte(b'\n');
}

// All eleven lines.
fn lines(origin: Origin, out: &mut Printout)
    ensures { Prints out.old (origin_text origin) out.new }
{
    pixel_lines(origin, out);
    cell_lines(origin, out);
    byte_lines(origin, out);
}

// The lines from the start of `out` on.
fn told(origin: Origin, out: &mut [u8]) -> Result<usize, Unprinted>
    requires { Told origin.shows }
    ensures { output (written_of result) out.new ≡ whole_text 0 (origin_text origin) out.old }
{
    print::whole(|printout| lines(origin, printout), out)
}

// What this chip and these memories tell of a row and column of the glass, from the start of `out` on. 1: a memory of another length; 2: a record that
// is not allowed; 5: a row or column that the glass does not have.
pub fn of_pixel(
    chip: Chip,
    memory: &[u8],
    writers: &[u64],
    row: usize,
    column: usize,
    out: &mut [u8],
) -> Result<usize, Unprinted>
    ensures { output (written_of result) out.new
        ≡ origin_call chip memory.now writers.now row column out.old }
{
    registers::refusal::lengths(memory.len(), writers.len())?;
    let place = glass::place(chip, row, column)?;
    told(
        origin_at(chip, memory, writers, row, column, usize::from(place)),
        out,
    )
}

// What is printed of a capture that came to `end` and left these memories: what a row and column of the glass tell, or the line where the capture is
// bad, from the start of `out` on.
pub fn origin_text(
    end: Result<End, Refusal>,
    memory: &[u8],
    writers: &[u64],
    row: usize,
    column: usize,
    out: &mut [u8],
) -> Result<usize, Unprinted>
    ensures { output (written_of result) out.new
        ≡ origin_text_call (numbered end) memory.now writers.now row column out.old }
{
    registers::refusal::lengths(memory.len(), writers.len())?;
    match end? {
        End::Whole(chip, _) => of_pixel(chip, memory, writers, row, column, out),
        _ => listing::refused(b"", end, out),
    }
}
