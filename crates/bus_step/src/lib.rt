// Four chips on one bus: an event reaches them all, and one count numbers the events.
#![tactic(auto)]

ghost use Rattle.std.specs.Prelude.{◌≡◌, map};
ghost use Rattle.engine.specs.Answer.{told};
ghost use Rattle.bus.specs.Bus.{bus};
ghost use Rattle.bus.specs.Step.{bus_after, bus_step_of};
ghost use Rattle.bus_refusals.specs.Four.{four};
ghost use Rattle.bus_step.specs.Part.{device_by, answer_by};

use engine::answer::Answer;
use refusals::Refusal;
use registers::Chip;

mod device;

// What the bus answers, and the chips after the event.
#[derive(Clone, Copy)]
struct Delivered {
    pub answer: Result<Answer, Refusal>,
    pub chips: [Chip; 4],
}

// The answer to an event, and the chips and the count after it.
#[derive(Clone, Copy)]
pub struct BusStepped {
    pub answer: Result<Answer, Refusal>,
    pub chips: [Chip; 4],
    pub count: u64,
}

// What an event does to each of the four, and what the bus answers.
fn deliver(
    event: u16,
    pins: u64,
    count: u64,
    chips: [Chip; 4],
    memory0: &mut [u8],
    writers0: &mut [u64],
    memory1: &mut [u8],
    writers1: &mut [u64],
    memory2: &mut [u8],
    writers2: &mut [u64],
    memory3: &mut [u8],
    writers3: &mut [u64],
) -> Delivered
    ensures writers3_after { four result.chips memory0.new writers0.new memory1.new writers1.new
        memory2.new writers2.new memory3.new writers3.new
        ≡ map (device_by event pins count) (four chips memory0.old writers0.old memory1.old writers1.old
        memory2.old writers2.old memory3.old writers3.old) }
    ensures answer_value { told result.answer
        ≡ answer_by event pins count (four chips memory0.old writers0.old memory1.old writers1.old
        memory2.old writers2.old memory3.old writers3.old) }
{
    let heard0 = device::hear(event, pins, count, chips[0], memory0, writers0);
    let heard1 = device::hear(event, pins, count, chips[1], memory1, writers1);
    let heard2 = device::hear(event, pins, count, chips[2], memory2, writers2);
    let heard3 = device::hear(event, pins, count, chips[3], memory3, writers3);
    Delivered {
        answer: bus_answers::of_four(
            event,
            heard0.answer,
            heard1.answer,
            heard2.answer,
            heard3.answer,
        ),
        chips: [heard0.chip, heard1.chip, heard2.chip, heard3.chip],
    }
}

// One event: refused with the same records, memories and count, or accepted. The pins are those that a sensor reading names.
// kept (C interface): a host lends each buffer by itself
pub fn step(
    event: u16,
    pins: u64,
    chips: [Chip; 4],
    count: u64,
    memory0: &mut [u8],
    writers0: &mut [u64],
    memory1: &mut [u8],
    writers1: &mut [u64],
    memory2: &mut [u8],
    writers2: &mut [u64],
    memory3: &mut [u8],
    writers3: &mut [u64],
) -> BusStepped
    ensures { bus_after (told result.answer) (four result.chips memory0.new writers0.new memory1.new writers1.new
        memory2.new writers2.new memory3.new writers3.new) result.count
        ≡ bus_step_of event pins (bus (four chips memory0.old writers0.old memory1.old writers1.old
        memory2.old writers2.old memory3.old writers3.old) count) }
{
    if let Err(refusal) = bus_refusals::of_step(
        event, pins, chips, count, memory0, writers0, memory1, writers1, memory2, writers2,
        memory3, writers3,
    ) {
        return BusStepped {
            answer: Err(refusal),
            chips,
            count,
        };
    }
    let delivered = deliver(
        event, pins, count, chips, memory0, writers0, memory1, writers1, memory2, writers2,
        memory3, writers3,
    );
    let chips = delivered.chips;
    BusStepped {
        answer: delivered.answer,
        chips,
        count: count + 1,
    }
}
