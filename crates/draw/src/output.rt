// What is printed: a capture's lines, or why the compiler refuses the list. Each answers whether the system took it; where it did not, that has been said.
ghost use Rattle.refusals.specs.Numbers.{number};
ghost use Rattle.print.specs.Prints.{Prints};
ghost use Rattle.draw.specs.Lines.{events_text};

use print::Printout;
use refusals::Refusal;

// `refused`, the number, and the line, which is 0 where there is none.
pub fn refused(rt: &HostRuntime, refusal: Refusal, line: u64) -> bool {
    let mut out = [0u8; 64];
    let mut text = Printout {
        out: &mut out,
        at: 0,
    };
    text.bytes(b"refused\t");
    text.field(u64::from(refusal.number()), b'\t');
    text.field(line, b'\n');
    let length = text.at;
    program_io::put_text(rt, b"draw", &out, Ok(length))
}

pub fn first_line(rt: &HostRuntime, pins: u8) -> bool {
    let mut out = [0u8; 64];
    let mut text = Printout {
        out: &mut out,
        at: 0,
    };
    text.named_line(b"pins", u64::from(pins));
    let length = text.at;
    program_io::put_text(rt, b"draw", &out, Ok(length))
}

// One event a line.
fn lines(events: &[u16], out: &mut Printout)
    ensures { Prints out.old (events_text events.now) out.new }
{
    for event in events {
        out.field(u64::from(*event), b'\n');
    }
}

// The events of a line of the list, at most 2,727 of three digits: they have room, and so are printed once, with no measuring before.
pub fn events(rt: &HostRuntime, events: &[u16]) -> bool {
    let mut out = [0u8; 10908];
    let mut text = Printout {
        out: &mut out,
        at: 0,
    };
    lines(events, &mut text);
    let length = text.at;
    program_io::put_text(rt, b"draw", &out, Ok(length))
}
