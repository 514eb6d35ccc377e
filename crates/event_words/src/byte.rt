// A byte from the master, by the phase of the bus.
ghost use Rattle.std.specs.Prelude.{◌≡◌};
ghost use Rattle.print.specs.Prints.{Prints};
ghost use Rattle.event_words.specs.Words.{direction, address_words, announced, control_words, display_words, content_words, byte_words};

use print::Printout;
use registers::{Phase, Registers};

fn direction(byte: u8) -> &'static [u8]
    ensures { result.now ≡ direction byte }
{
    if byte % 2 == 0 { b" write" } else { b" read" }
}

fn address(byte: u8, out: &mut Printout)
    ensures { Prints out.old (address_words byte) out.new }
{
    out.bytes(b"address ");
    out.decimal(u64::from(byte / 2));
    out.bytes(direction(byte));
}

// One byte, or bytes without end; commands, or display data.
fn announced(one: bool, rs: bool) -> &'static [u8]
    ensures { result.now ≡ announced one rs }
{
    match (one, rs) {
        (true, true) => b"control one display byte",
        (true, false) => b"control one command",
        (false, true) => b"control endless display bytes",
        (false, false) => b"control endless commands",
    }
}

// Bit 7 of a control byte is Co, bit 6 is RS.
fn control(byte: u8) -> &'static [u8]
    ensures { result.now ≡ control_words byte }
{
    announced(byte / 128 == 1, byte / 64 % 2 == 1)
}

fn display_byte(registers: Registers, byte: u8, out: &mut Printout)
    ensures { Prints out.old (display_words registers byte) out.new }
{
    out.bytes(b"display ");
    out.field(u64::from(display::column(registers)), b' ');
    out.field(u64::from(registers.y), b' ');
    out.decimal(u64::from(display::stored(registers, byte)));
}

fn content(rs: bool, registers: Registers, byte: u8, out: &mut Printout)
    ensures { Prints out.old (content_words rs registers byte) out.new }
{
    if rs {
        display_byte(registers, byte, out);
    } else {
        crate::command::words(registers, byte, out);
    }
}

#[tactic(auto, unfolding(crate::specs::Words::byte_words))]
pub fn words(phase: Phase, registers: Registers, byte: u8, out: &mut Printout)
    ensures { Prints out.old (byte_words phase registers byte) out.new }
{
    match phase {
        Phase::AddressAwaited => address(byte, out),
        Phase::ControlAwaited => out.bytes(control(byte)),
        Phase::OneByte(rs) | Phase::EndlessBytes(rs) => content(rs, registers, byte, out),
        Phase::Idle | Phase::Ignoring | Phase::Reading | Phase::ReadEnded => out.bytes(b"ignored"),
    }
}
