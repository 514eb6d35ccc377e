// Samples in order, up to the first event that has no room.
ghost use Rattle.std.specs.Prelude.{◌≡◌, true, false, ◌+◌, ◌-◌, ◌≤◌, length, MatchOption};
ghost use Rattle.std.proofs.lemmas.List.Edits.{sets};
ghost use Rattle.wire_samples.specs.Sample.{told_by};
ghost use Rattle.wire_samples.specs.Feed.{fits, as_much_as_fits, answer_of, answered, stored};

use crate::sample::sample;
use crate::{Fed, Wires};
use refusals::Refusal;

// What a sample tells, at a place of the buffer, and the next place, if there is room.
fn put(told: Option<u16>, events: &mut [u16], at: usize) -> Option<usize>
    ensures { MatchOption result
        ((fits told (length events.old - at) ≡ false) × (events.new ≡ events.old))
        (λ next. (fits told (length events.old - at) ≡ true) × (next ≡ at + length (told_by told)) × (events.new ≡ sets events.old at (told_by told))) }
{
    match told {
        None => Some(at),
        Some(event) if at < events.len() => {
            events[at] = event;
            Some(at + 1)
        }
        Some(_) => None,
    }
}

pub fn read(wires: Wires, samples: &[u8], events: &mut [u16]) -> Fed
    ensures value { answered result ≡ answer_of (as_much_as_fits (length events.old) wires samples.now) }
    ensures events_after { events.new
        ≡ stored (as_much_as_fits (length events.old) wires samples.now).events events.old }
{
    let mut after = wires;
    let mut last = wires.last;
    let mut written = 0;
    for (at, now) in samples.iter().enumerate() {
        // The last one again tells nothing, and a probe that samples often gives many of them.
        if *now == last {
            continue;
        }
        let sampled = sample(after, *now);
        let Some(next) = put(sampled.told, events, written) else {
            return Fed {
                wires: after,
                consumed: at,
                written,
                refusal: Some(Refusal::NoRoomForEvent),
            };
        };
        after = sampled.wires;
        last = *now;
        written = next;
    }
    Fed {
        wires: after,
        consumed: samples.len(),
        written,
        refusal: None,
    }
}
