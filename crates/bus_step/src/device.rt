// One chip's part in an event of the bus.
ghost use Rattle.std.specs.Prelude.{◌≡◌};
ghost use Rattle.engine.specs.Answer.{told};
ghost use Rattle.bus.specs.Bus.{device};
ghost use Rattle.bus_step.specs.Part.{part, part_of};

use engine::answer::Answer;
use refusals::Refusal;
use registers::Chip;

// The chip's answer, and the chip after the event.
#[derive(Clone, Copy)]
pub struct Heard {
    pub answer: Result<Answer, Refusal>,
    pub chip: Chip,
}

// A sensor reading is for the chip whose pins it names; every other event is for all. The bus has tested 1 and 2 for each of its chips, so that the
// chip's part is a run past its entry, over the one event. It tests 3, 4 and 16 again: what a run does with an event has a single caller, and is fast
// for that reason. It is not a step for the same reason: a step has one caller in the host's library, the host's own, and with a second it would copy
// the chip's record.
pub fn hear(
    event: u16,
    pins: u64,
    count: u64,
    chip: Chip,
    memory: &mut [u8],
    writers: &mut [u64],
) -> Heard
    ensures { part (told result.answer) (device result.chip memory.new writers.new)
        ≡ part_of event pins count (device chip memory.old writers.old) }
{
    let own_pins = u64::from(chip.pins);
    if bus_refusals::is_sensor_reading(event) & (own_pins != pins) {
        return Heard {
            answer: Ok(Answer::Nothing),
            chip,
        };
    }
    let ran = engine::past_entry::run(chip, count, memory, writers, &[event]);
    Heard {
        answer: ran.answer(event, chip),
        chip: ran.chip,
    }
}
