// How many samples were unclear, told to a person: a line on standard error, which does not go into a pipe to another program.
ghost use Rattle.print.specs.Prints.{Prints};
ghost use Rattle.wires.specs.Unclear.{unclear_line};

use print::Printout;

fn line(samples: u64, out: &mut Printout)
    ensures { Prints out.old (unclear_line samples) out.new }
{
    out.bytes(b"wires: ");
    out.decimal(samples);
    if samples == 1 {
        out.bytes(b" unclear sample\n");
    } else {
        out.bytes(b" unclear samples\n");
    }
}

// Nothing is said where there was none.
pub fn tell(rt: &HostRuntime, samples: u64) {
    if samples == 0 {
        return;
    }
    let mut out = [0u8; 64];
    let mut text = Printout {
        out: &mut out,
        at: 0,
    };
    line(samples, &mut text);
    let length = text.at;
    program_io::say_text(rt, &out, Ok(length));
}
