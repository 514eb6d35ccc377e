// The refusals of a part and of an end.
ghost use Rattle.std.specs.Prelude.{◌≡◌};
ghost use Rattle.refusals.specs.Numbers.{refused_by};
ghost use Rattle.registers.specs.Refusals.{◌then◌, lengths_refusal};
ghost use Rattle.capture.specs.Feeding.{line_allowed, kept_refusal};

use crate::Capture;
use capture_lines::LineSoFar;
use refusals::Refusal;

// Of the first line, up to 5 bytes of `pins` and the tab behind it are read, then the pins, which are 0 to 3.
fn line_allowed(line: LineSoFar) -> bool
    ensures { result ≡ line_allowed line }
{
    match line {
        LineSoFar::First(read) => read <= 5,
        LineSoFar::Pins(pins) => pins <= 3,
        LineSoFar::Empty | LineSoFar::Number(_) | LineSoFar::BadFirst | LineSoFar::Bad => true,
    }
}

// The chip that was kept is not allowed, or no bytes lead to the first line that was.
pub fn of_kept(capture: Capture) -> Result<(), Refusal>
    ensures { refused_by result ≡ kept_refusal capture.line capture.chip }
{
    if capture.chip.allowed() && line_allowed(capture.line) {
        Ok(())
    } else {
        Err(Refusal::Record)
    }
}

// A lent memory of another length; then what was kept.
pub fn of_part(capture: Capture, memory_len: usize, writers_len: usize) -> Result<(), Refusal>
    ensures { refused_by result ≡ lengths_refusal memory_len writers_len then kept_refusal capture.line capture.chip }
{
    registers::refusal::lengths(memory_len, writers_len)?;
    of_kept(capture)
}
