// One bus event.
ghost use Rattle.std.specs.Prelude.{◌≡◌};
ghost use Rattle.registers.specs.State.{state};
ghost use Rattle.engine.specs.Answer.{told};
ghost use Rattle.engine.specs.Step.{after, step_of};

use crate::answer::Answer;
use refusals::Refusal;
use registers::Chip;

// The answer to an event, or why it is refused, and the chip and the count after it: as they were where it is refused.
#[derive(Clone, Copy, Debug, PartialEq, Eq, Hash)]
pub struct Stepped {
    pub answer: Result<Answer, Refusal>,
    pub chip: Chip,
    pub count: u64,
}

// One event: refused with the same record, memories and count, or accepted. It is a run over that event.
pub fn step(event: u16, chip: Chip, count: u64, memory: &mut [u8], writers: &mut [u64]) -> Stepped
    ensures { after (told result.answer) result.chip memory.new writers.new result.count
        ≡ step_of event (state chip memory.old writers.old count) }
{
    let ran = crate::run::run(chip, count, memory, writers, &[event]);
    Stepped {
        answer: ran.answer(event, chip),
        chip: ran.chip,
        count: ran.count,
    }
}
