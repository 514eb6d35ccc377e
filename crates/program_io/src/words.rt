// Words and messages on slices: which words mean something, and how a line is composed. Each is an equation; `crate` hands the lines to the system.
ghost use Rattle.std.specs.Prelude.{[], ◌∷◌, ◌≡◌};
ghost use Rattle.print.specs.Prints.{Prints};
ghost use Rattle.program_io.specs.Messages.{is_help, is_dash, shown_byte, shown_of, name_of, title_of, Began, message_of, usage_of, wrong_call_of};

use print::Printout;
use text::search::equal;

pub fn is_help(word: &[u8]) -> bool
    ensures { result ≡ is_help word.now }
{
    equal(word, b"--help")
}

pub fn is_dash(word: &[u8]) -> bool
    ensures { result ≡ is_dash word.now }
{
    equal(word, b"-")
}

fn shown_byte(byte: u8) -> u8
    ensures { result ≡ shown_byte byte }
{
    if (byte < 32) | (byte == 127) {
        b'?'
    } else {
        byte
    }
}

// The bytes of a name. A file's name may have a newline, and a message is one line.
fn shown(s: &[u8], out: &mut Printout)
    ensures { Prints out.old (shown_of s.now) out.new }
{
    for b in s {
        out.byte(shown_byte(*b));
    }
}

fn name(s: &[u8], out: &mut Printout)
    ensures { Prints out.old (name_of s.now) out.new }
{
    if s.is_empty() {
        out.bytes(b"''");
    } else {
        shown(s, out);
    }
}

// The program's name, a colon and a blank, and the name of what the message is about.
fn whole_title(program: &[u8], about: &[u8], out: &mut Printout)
    ensures { Prints out.old (title_of program.now about.now) out.new }
{
    out.bytes(program);
    out.bytes(b": ");
    name(about, out);
}

// As much of that as has room, and how many bytes it is.
pub fn title(program: &[u8], about: &[u8], out: &mut [u8]) -> usize
    ensures { Began out.old (title_of program.now about.now) out.new result }
{
    let mut printout = Printout { out, at: 0 };
    whole_title(program, about, &mut printout);
    printout.at.min(printout.out.len())
}

pub fn message(program: &[u8], text: &[u8], out: &mut Printout)
    ensures { Prints out.old (message_of program.now text.now) out.new }
{
    out.bytes(program);
    out.bytes(b": ");
    out.bytes(text);
    out.byte(b'\n');
}

// How a program is called.
pub fn usage_line(usage: &[u8], out: &mut Printout)
    ensures { Prints out.old (usage_of usage.now) out.new }
{
    out.bytes(b"usage: ");
    out.bytes(usage);
    out.byte(b'\n');
}

pub fn wrong_call(program: &[u8], fault: &[u8], usage: &[u8], out: &mut Printout)
    ensures { Prints out.old (wrong_call_of program.now fault.now usage.now) out.new }
{
    out.bytes(program);
    out.bytes(b": ");
    out.bytes(fault);
    out.bytes(b"; ");
    usage_line(usage, out);
}
