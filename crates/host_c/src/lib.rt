// The calls of a host in C (include/pcf8820.h), exported: each is the call of that name in the crate `host`, with its clauses. A crate is a library or an
// archive and not both, and cases are run and proved over the library.
#![tactic(auto)]

ghost use Rattle.std.specs.Prelude.{◌≡◌};
ghost use Rattle.host.specs.Calls.{reset, reset_call, stepped, step_call, ran, run_call};
ghost use Rattle.host.specs.Compiling.{compiled, compile_call};
ghost use Rattle.host.specs.Counting.{counts, counts_call};
ghost use Rattle.host.specs.Pulses.{pulses_call, pulse_row_call};
ghost use Rattle.host.specs.Views.{glass_call, place_call};
ghost use Rattle.pulses.specs.Row.{pulse_row};

mod bus_call;
mod wires_call;

#[unsafe(no_mangle)]
pub extern "C" fn pcf8820_reset(record: &mut [u64], pins: u64) -> u64
    ensures { reset result «record».new ≡ reset_call pins «record».old }
{
    host::pcf8820_reset(record, pins)
}

#[unsafe(no_mangle)]
pub extern "C" fn pcf8820_step(
    record: &mut [u64],
    memory: &mut [u8],
    writers: &mut [u64],
    count: &mut u64,
    event: u16,
) -> u64
    ensures { stepped result «record».new memory.new writers.new count.new
        ≡ step_call event «record».old memory.old writers.old count.old }
{
    host::pcf8820_step(record, memory, writers, count, event)
}

#[unsafe(no_mangle)]
pub extern "C" fn pcf8820_run(
    record: &mut [u64],
    memory: &mut [u8],
    writers: &mut [u64],
    count: &mut u64,
    events: &[u16],
    done: &mut u64,
    unknown: &mut u64,
    out_of_range: &mut u64,
) -> u64
    ensures { ran result done.new unknown.new out_of_range.new
        «record».new memory.new writers.new count.new
        ≡ run_call events.now «record».old memory.old writers.old count.old }
{
    host::pcf8820_run(
        record,
        memory,
        writers,
        count,
        events,
        done,
        unknown,
        out_of_range,
    )
}

#[unsafe(no_mangle)]
pub extern "C" fn pcf8820_glass(record: &[u64], memory: &[u8], row: u64, column: u64) -> u64
    ensures { result ≡ glass_call row column «record».now memory.now }
{
    host::pcf8820_glass(record, memory, row, column)
}

#[unsafe(no_mangle)]
pub extern "C" fn pcf8820_place(record: &[u64], row: u64, column: u64) -> u64
    ensures { result ≡ place_call row column «record».now }
{
    host::pcf8820_place(record, row, column)
}

#[unsafe(no_mangle)]
pub extern "C" fn pcf8820_pulses(record: &[u64], memory: &[u8], row: u64, column: u64) -> u64
    ensures { result ≡ pulses_call row column «record».now memory.now }
{
    host::pcf8820_pulses(record, memory, row, column)
}

#[unsafe(no_mangle)]
pub extern "C" fn pcf8820_pulse_row(record: &[u64], memory: &[u8], row: u64, out: &mut [u8]) -> u64
    ensures { pulse_row result out.new
        ≡ pulse_row_call row «record».now memory.now out.old }
{
    host::pcf8820_pulse_row(record, memory, row, out)
}

#[unsafe(no_mangle)]
pub extern "C" fn pcf8820_compile(
    record: &[u64],
    text: &[u8],
    out: &mut [u16],
    length: &mut u64,
    clocks: &mut u64,
    line: &mut u64,
) -> u64
    ensures { compiled result length.new clocks.new line.new out.new
        ≡ compile_call «record».now text.now out.old }
{
    host::pcf8820_compile(record, text, out, length, clocks, line)
}

#[unsafe(no_mangle)]
pub extern "C" fn pcf8820_counts(
    memory: &[u8],
    n0: &mut u64,
    n1: &mut u64,
    n2: &mut u64,
    n3: &mut u64,
) -> u64
    ensures { counts result n0.new n1.new n2.new n3.new ≡ counts_call memory.now }
{
    host::counts_call::pcf8820_counts(memory, n0, n1, n2, n3)
}
