// A command byte: the row of the present page that takes it, that row's method, and the answer.
#![tactic(auto)]

ghost use Rattle.std.specs.Prelude.{◌≡◌};
ghost use Rattle.commands.specs.Command.{command_of, answer_to};

use answer::CommandAnswer;
use registers::Registers;

pub mod answer;
mod pages;

// The answer to a command byte, and the registers after it.
#[derive(Clone, Copy, Debug, PartialEq, Eq, Hash)]
pub struct Commanded {
    pub answer: CommandAnswer,
    pub registers: Registers,
}

// The row is found once, for both.
#[tactic(auto, unfolding(crate::specs::Command::command_of, crate::specs::Command::answer_to))]
pub fn command(registers: Registers, byte: u8) -> Commanded
    ensures registers_value { result.registers ≡ command_of byte registers }
    ensures answer_value { result.answer ≡ answer_to registers.h byte }
{
    let row = row_search::row_at(registers.h, byte);
    Commanded {
        answer: crate::answer::of_row(row, byte),
        registers: crate::pages::in_every_page(registers, row, byte),
    }
}
