// Drawing lists to bus events. What a list means, which events say it, and that the two agree on every chip stands in `drawing`.
#![tactic(auto)]

ghost use Rattle.std.specs.Prelude.{◌≡◌, ◌≤◌};
ghost use Rattle.registers.specs.Record.{blank};
ghost use Rattle.lists.specs.Lists.{newlines, reading_of};
ghost use Rattle.compiler.specs.Writes.{Tracked};
ghost use Rattle.compiler.specs.Answer.{told};
ghost use Rattle.compiler.specs.Compile.{answered, from_reading, compile_of};
ghost use Rattle.compiler.specs.Promise.{Promise};

use answer::{CompileError, Compiled};
use measure::Measured;
use refusals::Refusal;
use registers::{Chip, Registers};

pub mod answer;
mod emit;
mod line;
mod measure;
mod message;
mod runs;
mod setting;
mod write;

// The registers that a list says something of. H, X and Y are blanked: every message sets its own.
fn blanked(registers: Registers) -> Registers
    ensures { result ≡ blank registers }
{
    Registers {
        h: 0,
        x: 0,
        y: 0,
        ..registers
    }
}

// The events of a text that neither 2 nor 9 refuses, from the pins and the blanked registers.
fn compile_lines(
    registers: Registers,
    pins: u8,
    text: &[u8],
    out: &mut [u16],
) -> Result<Compiled, CompileError>
    requires { (newlines text.now ≤ 4096) × Tracked registers × (pins ≤ 3) }
    ensures { answered (told result) out.new ≡ from_reading pins registers (reading_of text.now) out.old }
{
    let Measured { length, bytes } = measure::measure(text, registers, pins)?;
    if out.len() < length {
        return Err(CompileError::Short { needed: length });
    }
    write::write(out, text, registers, pins);
    Ok(Compiled {
        length,
        clocks: 9 * bytes,
    })
}

// The bus events that draw a list on the chip with this record, written from the output's first word on.
pub fn compile(chip: Chip, text: &[u8], out: &mut [u16]) -> Result<Compiled, CompileError>
    ensures out_after { answered (told result) out.new ≡ compile_of chip text.now out.old }
    ensures promise { Promise (told result) chip text.now out.new }
{
    if !chip.allowed() {
        return Err(CompileError::Refused(Refusal::Record));
    }
    if 4096 < lists::count_newlines(text) {
        return Err(CompileError::Refused(Refusal::TooManyLines));
    }
    compile_lines(blanked(chip.registers), chip.pins, text, out)
}
