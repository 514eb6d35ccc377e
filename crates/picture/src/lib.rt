// The glass as a portable pixmap, for any viewer of pictures.
#![tactic(auto)]

ghost use Rattle.std.specs.Prelude.{◌≡◌};
ghost use Rattle.print.specs.Printed.{output, parts_from};
ghost use Rattle.print.specs.Prints.{Prints, written_of};
ghost use Rattle.refusals.specs.Numbers.{numbered, refused_by};
ghost use Rattle.picture.specs.Picture.{grey, rgb, colour_of, pixel_text, pixel_at, pixel_count, pixmap_of, pixmap_refusal, pixmap_call};

use glass::answer::Shown;
use print::{Printout, Unprinted};
use refusals::Refusal;
use registers::Chip;

// Parts of 255.
#[derive(Clone, Copy, Debug, PartialEq, Eq, Hash)]
pub struct Colour {
    pub red: u8,
    pub green: u8,
    pub blue: u8,
}

// How light a level is. A level is 64 at most, full black; above it nothing is left.
fn light(level: u8) -> u8
    ensures { result ≡ grey level }
{
    (255 * u16::from(64u8.saturating_sub(level)) / 64) as u8
}

fn rgb(red: u8, green: u8, blue: u8) -> Colour
    ensures { result ≡ rgb red green blue }
{
    Colour { red, green, blue }
}

fn level_colour(level: u8) -> Colour
    ensures { result ≡ rgb (grey level) (grey level) (grey level) }
{
    let value = light(level);
    rgb(value, value, value)
}

// On a picture that is not refused no pixel is.
fn colour_of(shown: Result<Shown, Refusal>) -> Colour
    ensures { result ≡ colour_of (numbered shown) }
{
    match shown {
        Ok(Shown::Level(level)) => level_colour(level),
        Ok(Shown::Dark) => rgb(0, 0, 96),
        Ok(Shown::Undriven) => rgb(96, 64, 0),
        Err(_) => rgb(0, 0, 0),
    }
}

// One pixel's line.
fn pixel(colour: Colour, out: &mut Printout)
    ensures { Prints out.old (pixel_text colour) out.new }
{
    out.field(u64::from(colour.red), b' ');
    out.field(u64::from(colour.green), b' ');
    out.field(u64::from(colour.blue), b'\n');
}

fn pixel_at(chip: Chip, memory: &[u8], k: usize, out: &mut Printout)
    ensures { Prints out.old (pixel_at chip memory.now k) out.new }
{
    let shown = glass::glass(chip, memory, k / 101, k % 101);
    pixel(colour_of(shown), out);
}

// 67 rows of 101 pixels.
fn pixels(chip: Chip, memory: &[u8], out: &mut Printout)
    ensures { Prints out.old (parts_from (pixel_at chip memory.now) 0 pixel_count) out.new }
{
    for k in 0..6767 {
        pixel_at(chip, memory, k, out);
    }
}

// The whole text.
fn text(chip: Chip, memory: &[u8], out: &mut Printout)
    ensures { Prints out.old (pixmap_of chip memory.now) out.new }
{
    out.bytes(b"P3\n101 67\n255\n");
    pixels(chip, memory, out);
}

// A memory of another length; then a record that is not allowed.
#[tactic(auto, unfolding(crate::specs::Picture::pixmap_refusal))]
fn refusal(chip: Chip, memory_len: usize) -> Result<(), Refusal>
    ensures { refused_by result ≡ pixmap_refusal chip memory_len }
{
    registers::refusal::length(memory_len)?;
    registers::refusal::record(chip)
}

// The picture of what this chip shows of this memory, from the start of `out` on.
pub fn pixmap(chip: Chip, memory: &[u8], out: &mut [u8]) -> Result<usize, Unprinted>
    ensures { output (written_of result) out.new ≡ pixmap_call chip memory.now out.old }
{
    refusal(chip, memory.len())?;
    print::whole(|printout| text(chip, memory, printout), out)
}
