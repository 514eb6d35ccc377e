// Why the compiler refuses a list, told to a person: a sentence on standard error, which a pipe into another program does not swallow.
ghost use Rattle.refusals.specs.Numbers.{number};
ghost use Rattle.print.specs.Prints.{Prints};
ghost use Rattle.draw.specs.Refusal.{place_of, reason_of, sentence_of};

use print::Printout;
use refusals::Refusal;

// The line of the list, where one is to blame.
fn place(line: u64, out: &mut Printout)
    ensures { Prints out.old (place_of line) out.new }
{
    if line != 0 {
        out.bytes(b", line ");
        out.decimal(line);
    }
}

// The rule that is broken. The record of a chip after reset is allowed and there is room for the events, so that only 6, 7, 8 and 9 come.
fn reason(refusal: Refusal, out: &mut Printout)
    ensures { Prints out.old (reason_of (number refusal)) out.new }
{
    match refusal {
        Refusal::MalformedLine => out.bytes(
            b"no put, fill or set, a field too many or too few, an unknown register, a number with a leading zero or not of 1 to 3 digits, or no newline at the end",
        ),
        Refusal::NumberOutOfRange => out.bytes(
            b"a column above 100, a bank above 16, ends the wrong way round, a byte above 255, a byte above 63 where bank 16 is touched, or a value wider than its field",
        ),
        Refusal::UnreadableRow => out.bytes(
            b"a register whose row of the instruction table can't be read",
        ),
        _ => out.bytes(b"more than 4096 lines"),
    }
}

// The whole line. `name` is what a message about the list begins with.
fn sentence(name: &[u8], refusal: Refusal, line: u64, out: &mut Printout)
    ensures { Prints out.old (sentence_of name.now (number refusal) line) out.new }
{
    out.bytes(name);
    place(line, out);
    out.bytes(b": refused by ");
    out.decimal(u64::from(refusal.number()));
    out.bytes(b": ");
    reason(refusal, out);
    out.byte(b'\n');
}

pub fn explain(rt: &HostRuntime, title: &[u8], refusal: Refusal, line: u64) {
    let mut out = program_io::room::<65536>();
    let mut text = Printout {
        out: &mut out,
        at: 0,
    };
    sentence(title, refusal, line, &mut text);
    let length = text.at;
    program_io::say_text(rt, &out, Ok(length));
}
