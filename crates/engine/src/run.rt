// A run over a lent sequence of events.
ghost use Rattle.std.specs.Prelude.{◌≡◌};
ghost use Rattle.refusals.specs.Numbers.{number_of};
ghost use Rattle.registers.specs.State.{state};
ghost use Rattle.commands.specs.declared.answer.CommandAnswer.TheVariants.{Unknown, OutOfRange};
ghost use Rattle.engine.specs.Answer.{told};
ghost use Rattle.engine.specs.Event.{event_of};
ghost use Rattle.engine.specs.Loop.{answer_of, commanded_by, command_answered};
ghost use Rattle.engine.specs.PastEntry.{answer_unless};
ghost use Rattle.engine.specs.Run.{outcome, run_of, tally};

use crate::answer::Answer;
use refusals::Refusal;
use registers::Chip;

// How many events were done, how many of them were unknown commands and commands out of range, what stopped the run if anything did, and the chip and
// the count after it.
#[derive(Clone, Copy, Debug, PartialEq, Eq, Hash)]
pub struct Ran {
    pub done: usize,
    pub unknown: usize,
    pub out_of_range: usize,
    pub refusal: Option<Refusal>,
    pub chip: Chip,
    pub count: u64,
}

impl Ran {
    // Of a run over one event, the answer to it. The chip is the one before the event.
    #[tactic(auto, using(crate::proofs::Refusals::refusal_told))]
    pub fn answer(self, event: u16, before: Chip) -> Result<Answer, Refusal>
        ensures { told result ≡ answer_unless (number_of self.refusal)
            (commanded_by (command_answered self.unknown self.out_of_range) (answer_of (event_of event) before)) }
    {
        match self.refusal {
            Some(refusal) => Err(refusal),
            None => Ok(crate::answering::to_event(event, before, self.unknown, self.out_of_range)),
        }
    }
}

// Events in order up to the first refused one. 1 and 2 are tested at entry, even with no events.
pub fn run(chip: Chip, count: u64, memory: &mut [u8], writers: &mut [u64], events: &[u16]) -> Ran
    ensures count_after { outcome result.done (number_of result.refusal) (state result.chip memory.new writers.new result.count)
        ≡ run_of events.now (state chip memory.old writers.old count) }
    ensures unknown_value { result.unknown ≡ tally Unknown events.now (state chip memory.old writers.old count) }
    ensures out_of_range_value { result.out_of_range ≡ tally OutOfRange events.now (state chip memory.old writers.old count) }
{
    if let Err(refusal) = crate::refusal::at_entry(chip, memory.len(), writers.len()) {
        return Ran {
            done: 0,
            unknown: 0,
            out_of_range: 0,
            refusal: Some(refusal),
            chip,
            count,
        };
    }
    crate::past_entry::run(chip, count, memory, writers, events)
}
