// Samples of the two wires of the bus, as they come in parts of any size, to the text of a capture: the `pins` line, the number of each event that
// they tell on a line of its own, and, at a byte that is no sample, the line that says where it stands.
#![tactic(auto)]

ghost use Rattle.std.specs.Prelude.{◌≡◌};
ghost use Rattle.print.specs.Printed.{place_after};
ghost use Rattle.print.specs.Prints.{Prints};
ghost use Rattle.wire_text.specs.Capture.{last_line};
ghost use Rattle.wire_text.specs.Parts.{start_of, is_over, first_line, part_text, after_part};

use print::Printout;
use wire_samples::Wires;

mod events;

// What is kept from one part to the next: the pins, whether their line is written, the wires, how many samples there were, and whether a byte has
// come that is none.
#[derive(Clone, Copy, Debug, PartialEq, Eq)]
pub struct Reading {
    pub pins: u8,
    pub begun: bool,
    pub wires: Wires,
    pub samples: u64,
    pub refused: bool,
}

// Before the first part.
pub fn start(pins: u8) -> Reading
    ensures { result ≡ start_of pins }
{
    Reading {
        pins,
        begun: false,
        wires: wire_samples::start(),
        samples: 0,
        refused: false,
    }
}

// Whether nothing more is told: a byte has come that is no sample, or the wires are none that samples leave.
#[tactic(auto, unfolding(crate::specs::Parts::is_over))]
pub fn is_over(reading: Reading) -> bool
    ensures { result ≡ is_over reading }
{
    reading.refused || !wire_samples::refusal::is_allowed(reading.wires)
}

// The `pins` line, if this is the first part.
fn first_line(reading: Reading, out: &mut Printout)
    ensures { Prints out.old (first_line reading) out.new }
{
    if !reading.begun {
        out.named_line(b"pins", u64::from(reading.pins));
    }
}

// Which byte is no sample, where there is one.
fn last_line(good: bool, place: u64, out: &mut Printout)
    ensures { Prints out.old (last_line good place) out.new }
{
    if !good {
        out.named_line(b"refused\t14", place);
    }
}

// No input has as many samples as the largest number.
fn counted_on(samples: u64, more: usize) -> u64
    ensures { result ≡ place_after samples more }
{
    samples.saturating_add(more as u64)
}

// Prints the text of the next bytes: at most four bytes for each, and 41 more (`part-bound`). The reading after them.
pub fn tell(reading: Reading, part: &[u8], out: &mut Printout) -> Reading
    ensures reading { result ≡ after_part reading part.now }
    ensures told { Prints out.old (part_text reading part.now) out.new }
{
    if is_over(reading) {
        return reading;
    }
    let n = events::samples_in(part);
    let good = n == part.len();
    let samples = counted_on(reading.samples, n);
    first_line(reading, out);
    let wires = events::tell(reading.wires, &part[..n], out);
    last_line(good, samples, out);
    Reading {
        begun: true,
        wires,
        samples,
        refused: !good,
        ..reading
    }
}
