// The events that samples tell, one a line.
ghost use Rattle.std.specs.Prelude.{◌≡◌, true, ◌≤◌, length};
ghost use Rattle.print.specs.Chosen.{lines_of};
ghost use Rattle.print.specs.Prints.{Prints};
ghost use Rattle.wire_samples.specs.Feed.{after_all, is_allowed, are_samples};
ghost use Rattle.wire_text.specs.Capture.{samples_in, event_line, event_lines};

use print::Printout;
use wire_samples::Wires;

// How many samples stand before the first byte that is none. Nearly always all bytes are samples, which is tested many at a time.
pub fn samples_in(part: &[u8]) -> usize
    ensures { result ≡ length (samples_in part.now) }
{
    if wire_samples::refusal::are_samples(part) {
        return part.len();
    }
    part.iter().position(|byte| 3 < *byte).unwrap_or(part.len())
}

fn lines(events: &[u16], out: &mut Printout)
    ensures { Prints out.old (lines_of event_line events.now) out.new }
{
    for event in events {
        out.field(u64::from(*event), b'\n');
    }
}

// As many samples as there is room for events: each tells one at most. The wires after them.
fn tell_some(wires: Wires, samples: &[u8], events: &mut [u16], out: &mut Printout) -> Wires
    requires wires_allowed { is_allowed wires ≡ true }
    requires all_samples { are_samples samples.now ≡ true }
    requires room { length samples.now ≤ length events.old }
    ensures after { result ≡ after_all wires samples.now }
    ensures told { Prints out.old (event_lines wires samples.now) out.new }
{
    let fed = wire_samples::feed(wires, samples, events);
    lines(&events[..fed.written], out);
    fed.wires
}

// The samples are told 4,096 at a time, with room for their events. The wires after them.
pub fn tell(wires: Wires, samples: &[u8], out: &mut Printout) -> Wires
    requires wires_allowed { is_allowed wires ≡ true }
    requires all_samples { are_samples samples.now ≡ true }
    ensures after { result ≡ after_all wires samples.now }
    ensures told { Prints out.old (event_lines wires samples.now) out.new }
{
    let mut events = [0; 4096];
    let mut after = wires;
    for some in samples.chunks(4096) {
        after = tell_some(after, some, &mut events, out);
    }
    after
}
