// A step and a run for whoever has tested 1 and 2 already, as a call from C has, a bus for its chips and a capture for a part: neither is tested again.
ghost use Rattle.std.specs.Prelude.{◌≡◌};
ghost use Rattle.refusals.specs.Numbers.{number_of};
ghost use Rattle.registers.specs.State.{state};
ghost use Rattle.commands.specs.declared.answer.CommandAnswer.TheVariants.{Unknown, OutOfRange};
ghost use Rattle.engine.specs.Answer.{told};
ghost use Rattle.engine.specs.PastEntry.{step_past_entry, run_past_entry, tally_past_entry};
ghost use Rattle.engine.specs.Run.{outcome};
ghost use Rattle.engine.specs.Step.{after};

use crate::run::Ran;
use crate::step::Stepped;
use registers::Chip;

// One event: refused by 3, 4 or 16 with the same record, memories and count, or accepted.
pub fn step(event: u16, chip: Chip, count: u64, memory: &mut [u8], writers: &mut [u64]) -> Stepped
    ensures { after (told result.answer) result.chip memory.new writers.new result.count
        ≡ step_past_entry event (state chip memory.old writers.old count) }
{
    let ran = run(chip, count, memory, writers, &[event]);
    Stepped {
        answer: ran.answer(event, chip),
        chip: ran.chip,
        count: ran.count,
    }
}

// Events in order up to the first that 3, 4 or 16 refuses. It alone goes through events, so that their loop is compiled into it.
pub fn run(chip: Chip, count: u64, memory: &mut [u8], writers: &mut [u64], events: &[u16]) -> Ran
    ensures count_after { outcome result.done (number_of result.refusal) (state result.chip memory.new writers.new result.count)
        ≡ run_past_entry 0 events.now (state chip memory.old writers.old count) }
    ensures unknown_value { result.unknown ≡ tally_past_entry Unknown events.now (state chip memory.old writers.old count) }
    ensures out_of_range_value { result.out_of_range ≡ tally_past_entry OutOfRange events.now (state chip memory.old writers.old count) }
{
    crate::sequence::go_through(chip, count, memory, writers, events)
}
