// The calls of a host in C (include/pcf8820.h). The host holds a chip's record as words; each call answers for every buffer it may be lent.
#![tactic(auto)]

ghost use Rattle.std.specs.Prelude.{◌≡◌};
ghost use Rattle.refusals.specs.Numbers.{refused_by};
ghost use Rattle.registers.specs.Refusals.{lengths_refusal};
ghost use Rattle.host.specs.Calls.{no_record_for, reset, reset_call, stepped, step_call, ran, run_call};
ghost use Rattle.host.specs.Compiling.{compiled, compile_call};
ghost use Rattle.host.specs.Views.{glass_call, place_call};
ghost use Rattle.host.specs.Pulses.{pulses_call, pulse_row_call};
ghost use Rattle.pulses.specs.Row.{pulse_row};

use compiler::answer::Numbers;
use record_words::{WORDS, read_record, write_record};
use refusals::Refusal;
use registers::Chip;

pub mod bus_call;
pub mod counts_call;
pub mod wires_call;

// The number of a refusal; 0 is none.
// kept (C interface): a host is told numbers
fn refused_by(done: Result<(), Refusal>) -> u64
    ensures { result ≡ refused_by done }
{
    match done {
        Ok(()) => 0,
        Err(refusal) => u64::from(refusal.number()),
    }
}

// Where a lent memory has another length.
fn other_length(memory_len: usize, writers_len: usize) -> u64
    ensures { result ≡ lengths_refusal memory_len writers_len }
{
    refused_by(registers::refusal::lengths(memory_len, writers_len))
}

// Why words that stand for no record are refused: another length of a memory comes first.
fn no_record(memory_len: usize, writers_len: usize) -> u64
    ensures { result ≡ no_record_for memory_len writers_len }
{
    let refused = other_length(memory_len, writers_len);
    if refused != 0 {
        return refused;
    }
    2
}

// The record after power-on reset, for these pins.
pub fn pcf8820_reset(record: &mut [u64], pins: u64) -> u64
    ensures { reset result «record».new ≡ reset_call pins «record».old }
{
    if record.len() != WORDS {
        return 2;
    }
    if 3 < pins {
        return 2;
    }
    write_record(Chip::reset(pins as u8), record);
    0
}

// One bus event. A refused one leaves the count as it is. Words that stand for a record stand for one that is allowed, so that of the entry the lengths
// alone are left to be tested.
pub fn pcf8820_step(
    record: &mut [u64],
    memory: &mut [u8],
    writers: &mut [u64],
    count: &mut u64,
    event: u16,
) -> u64
    ensures { stepped result «record».new memory.new writers.new count.new
        ≡ step_call event «record».old memory.old writers.old count.old }
{
    let Some(chip) = read_record(record) else {
        return no_record(memory.len(), writers.len());
    };
    let refused = other_length(memory.len(), writers.len());
    if refused != 0 {
        return refused;
    }
    let stepped = engine::past_entry::step(event, chip, *count, memory, writers);
    *count = stepped.count;
    write_record(stepped.chip, record);
    engine::answer::number(stepped.answer)
}

// Events in order up to the first refused one: how many were done, and how many of those were commands that were unknown and out of range.
pub fn pcf8820_run(
    record: &mut [u64],
    memory: &mut [u8],
    writers: &mut [u64],
    count: &mut u64,
    events: &[u16],
    done: &mut u64,
    unknown: &mut u64,
    out_of_range: &mut u64,
) -> u64
    ensures { ran result done.new unknown.new out_of_range.new
        «record».new memory.new writers.new count.new
        ≡ run_call events.now «record».old memory.old writers.old count.old }
{
    *done = 0;
    *unknown = 0;
    *out_of_range = 0;
    let Some(chip) = read_record(record) else {
        return no_record(memory.len(), writers.len());
    };
    let refused = other_length(memory.len(), writers.len());
    if refused != 0 {
        return refused;
    }
    let ran = engine::past_entry::run(chip, *count, memory, writers, events);
    *count = ran.count;
    *done = ran.done as u64;
    *unknown = ran.unknown as u64;
    *out_of_range = ran.out_of_range as u64;
    write_record(ran.chip, record);
    u64::from(refusals::number_of(ran.refusal))
}

// What a row and column of the glass show. No writer numbers are lent, so that their length is never wrong.
pub fn pcf8820_glass(record: &[u64], memory: &[u8], row: u64, column: u64) -> u64
    ensures { result ≡ glass_call row column «record».now memory.now }
{
    let Some(chip) = read_record(record) else {
        return no_record(memory.len(), 1717);
    };
    let shown = glass::glass(chip, memory, row as usize, column as usize);
    glass::answer::shown_number(shown)
}

// Which place of the memories a row and column of the glass show.
pub fn pcf8820_place(record: &[u64], row: u64, column: u64) -> u64
    ensures { result ≡ place_call row column «record».now }
{
    let Some(chip) = read_record(record) else {
        return 2;
    };
    let place = glass::place(chip, row as usize, column as usize);
    glass::answer::place_number(place)
}

// The pulses of a pixel in the four frames.
pub fn pcf8820_pulses(record: &[u64], memory: &[u8], row: u64, column: u64) -> u64
    ensures { result ≡ pulses_call row column «record».now memory.now }
{
    let Some(chip) = read_record(record) else {
        return no_record(memory.len(), 1717);
    };
    let pulses = pulses::of_pixel(chip, memory, row as usize, column as usize);
    pulses::answer::pulses_number(pulses)
}

// Those of a whole row of the glass.
pub fn pcf8820_pulse_row(record: &[u64], memory: &[u8], row: u64, out: &mut [u8]) -> u64
    ensures { pulse_row result out.new
        ≡ pulse_row_call row «record».now memory.now out.old }
{
    let Some(chip) = read_record(record) else {
        return no_record(memory.len(), 1717);
    };
    refused_by(pulses::of_row(chip, memory, row as usize, out))
}

// A drawing list to bus events.
pub fn pcf8820_compile(
    record: &[u64],
    text: &[u8],
    out: &mut [u16],
    length: &mut u64,
    clocks: &mut u64,
    line: &mut u64,
) -> u64
    ensures { compiled result length.new clocks.new line.new out.new
        ≡ compile_call «record».now text.now out.old }
{
    let Some(chip) = read_record(record) else {
        *length = 0;
        *clocks = 0;
        *line = 0;
        return 2;
    };
    let numbers = Numbers::of(compiler::compile(chip, text, out));
    *length = numbers.length;
    *clocks = numbers.clocks;
    *line = numbers.line;
    numbers.number
}
