// The first pass over a list: its first fault, or how many events and bytes its lines take. Nothing is written before it has ended.
ghost use Rattle.std.specs.Prelude.{◌≡◌, ◌≤◌};
ghost use Rattle.lists.specs.Lists.{newlines, reading_of};
ghost use Rattle.compiler.specs.Writes.{Tracked};
ghost use Rattle.compiler.specs.Answer.{told_measured};
ghost use Rattle.compiler.specs.Compile.{measure_of};

use crate::answer::Fault;
use crate::line;
use registers::Registers;

// How many events there are, and how many of them are bytes.
#[derive(Clone, Copy)]
pub struct Measured {
    pub length: usize,
    pub bytes: usize,
}

pub fn measure(text: &[u8], registers: Registers, pins: u8) -> Result<Measured, Fault>
    requires { (newlines text.now ≤ 4096) × Tracked registers × (pins ≤ 3) }
    ensures { told_measured result ≡ measure_of pins registers (reading_of text.now) }
{
    let mut at = 0;
    let mut number = 1;
    let mut tracked = registers;
    let mut length = 0;
    let mut bytes = 0;
    // kept (no plainer): where the next line starts comes with each line.
    while at < text.len() {
        let found = lists::line_at(text, at);
        match found.parsed {
            Err(refusal) => {
                return Err(Fault {
                    refusal,
                    line: number,
                });
            }
            Ok(asked) => {
                let counts = line::count(asked, tracked, pins);
                length += counts.events;
                bytes += counts.bytes;
                tracked = line::registers_after(asked, tracked);
            }
        }
        at = found.next;
        number += 1;
    }
    Ok(Measured { length, bytes })
}
