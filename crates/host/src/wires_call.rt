// The host's calls for samples of the wires.
ghost use Rattle.std.specs.Prelude.{◌≡◌};
ghost use Rattle.wire_words.specs.Calls.{started, start_call, called, wires_call};

// The wire state before the first sample.
pub fn pcf8820_wires_start(state: &mut [u64]) -> u64
    ensures { started result state.new ≡ start_call state.old }
{
    wire_words::start(state)
}

// Samples to events. A call refused by 2 or 14 leaves both buffers as they are.
pub fn pcf8820_wires(
    state: &mut [u64],
    samples: &[u8],
    events: &mut [u16],
    consumed: &mut u64,
    written: &mut u64,
) -> u64
    ensures { called result state.new events.new consumed.new written.new
        ≡ wires_call state.old samples.now events.old }
{
    wire_words::feed(state, samples, events, consumed, written)
}
