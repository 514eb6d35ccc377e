// The calls for samples of the wires.
ghost use Rattle.std.specs.Prelude.{◌≡◌};
ghost use Rattle.wire_words.specs.Calls.{started, start_call, called, wires_call};

#[unsafe(no_mangle)]
pub extern "C" fn pcf8820_wires_start(state: &mut [u64]) -> u64
    ensures { started result state.new ≡ start_call state.old }
{
    host::wires_call::pcf8820_wires_start(state)
}

#[unsafe(no_mangle)]
pub extern "C" fn pcf8820_wires(
    state: &mut [u64],
    samples: &[u8],
    events: &mut [u16],
    consumed: &mut u64,
    written: &mut u64,
) -> u64
    ensures { called result state.new events.new consumed.new written.new
        ≡ wires_call state.old samples.now events.old }
{
    host::wires_call::pcf8820_wires(state, samples, events, consumed, written)
}
