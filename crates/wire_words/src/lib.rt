// The calls of a host in C that read wires. The host holds what is kept of them as words of 64 bits.
#![tactic(auto)]

ghost use Rattle.std.specs.Prelude.{◌≡◌};
ghost use Rattle.wire_words.specs.Calls.{started, start_call, called, wires_call};

use crate::words::WORDS;
use refusals::Refusal;

mod stage;
mod words;

// The state before the first sample.
#[tactic(auto, unfolding(crate::specs::Calls::start_call))]
pub fn start(state: &mut [u64]) -> u64
    ensures { started result state.new ≡ start_call state.old }
{
    if state.len() != WORDS {
        return u64::from(Refusal::Record.number());
    }
    words::write_state(wire_samples::start(), state);
    0
}

// Samples to events, which are written from the buffer's first place on; the state is moved on by the samples that were consumed. How many those are
// and how many events were written is set whatever is given back.
pub fn feed(
    state: &mut [u64],
    samples: &[u8],
    events: &mut [u16],
    consumed: &mut u64,
    written: &mut u64,
) -> u64
    ensures { called result state.new events.new consumed.new written.new
        ≡ wires_call state.old samples.now events.old }
{
    let Some(wires) = words::read_state(state) else {
        *consumed = 0;
        *written = 0;
        return u64::from(Refusal::Record.number());
    };
    let fed = wire_samples::feed(wires, samples, events);
    words::write_state(fed.wires, state);
    *consumed = fed.consumed as u64;
    *written = fed.written as u64;
    u64::from(refusals::number_of(fed.refusal))
}
