// The second pass over a list that has no fault, into an output that has room for its events.
ghost use Rattle.std.specs.Prelude.{◌≡◌, ◌≤◌, length};
ghost use Rattle.std.proofs.lemmas.List.Edits.{sets};
ghost use Rattle.lists.specs.Lists.{lines, reading_of};
ghost use Rattle.drawing.specs.Stream.{stream};
ghost use Rattle.compiler.specs.Compile.{lines_of};

use crate::line;
use registers::Registers;

pub fn write(out: &mut [u16], text: &[u8], registers: Registers, pins: u8)
    requires { (reading_of text.now ≡ lines (lines_of (reading_of text.now)))
        × (length (stream pins (lines_of (reading_of text.now)) registers) ≤ length out.old) }
    ensures { out.new ≡ sets out.old 0 (stream pins (lines_of (reading_of text.now)) registers) }
{
    let mut at = 0;
    let mut here = 0;
    let mut tracked = registers;
    // kept (no plainer): where the next line starts comes with each line.
    while at < text.len() {
        let found = lists::line_at(text, at);
        match found.parsed {
            Err(_) => return,
            Ok(asked) => {
                here = line::write(out, here, asked, tracked, pins);
                tracked = line::registers_after(asked, tracked);
            }
        }
        at = found.next;
    }
}
