// Samples of the two wires of the bus, SCL in bit 1 and SDA in bit 0 of a byte, to the numbers of bus events.
#![tactic(auto)]

ghost use Rattle.std.specs.Prelude.{◌≡◌, length};
ghost use Rattle.wire_samples.specs.Sample.{at_start};
ghost use Rattle.wire_samples.specs.Feed.{feed_of, answer_of, answered, stored};

use refusals::Refusal;

mod part;
pub mod refusal;
mod sample;
mod signal;

// Where in a message the wires are.
#[derive(Clone, Copy, Debug, PartialEq, Eq)]
pub enum Stage {
    // outside START to STOP
    Outside,
    // after an unclear sample, up to the next START
    Waiting,
    // in the first byte after a START
    First,
    // in bytes that the master writes
    Writing,
    // in bytes that the master reads
    Reading,
}

// What is kept from one sample to the next: how many samples were unclear, the last sample, the stage, how many bits of the present byte were taken,
// and their value.
#[derive(Clone, Copy, Debug, PartialEq, Eq)]
pub struct Wires {
    pub unclear: u64,
    pub last: u8,
    pub stage: Stage,
    pub bits: u8,
    pub value: u8,
}

// How many samples were consumed, how many events written, the refusal, if any, and the wires after those samples.
// kept (promise): answer_of tells what was consumed and written where a call is refused for want of room, too
#[derive(Clone, Copy, Debug, PartialEq, Eq)]
pub struct Fed {
    pub wires: Wires,
    pub consumed: usize,
    pub written: usize,
    pub refusal: Option<Refusal>,
}

// What the first sample is held against: two high lines, and no message open.
pub fn start() -> Wires
    ensures { result ≡ at_start }
{
    Wires {
        unclear: 0,
        last: 3,
        stage: Stage::Outside,
        bits: 0,
        value: 0,
    }
}

// The events of the samples, written from the buffer's first word on, up to the first that has no room.
pub fn feed(wires: Wires, samples: &[u8], events: &mut [u16]) -> Fed
    ensures value { answered result ≡ answer_of (feed_of (length events.old) wires samples.now) }
    ensures events_after { events.new
        ≡ stored (feed_of (length events.old) wires samples.now).events events.old }
{
    if let Err(refusal) = refusal::of_samples(wires, samples) {
        return Fed {
            wires,
            consumed: 0,
            written: 0,
            refusal: Some(refusal),
        };
    }
    part::read(wires, samples, events)
}
