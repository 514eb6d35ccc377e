// Plays the example of the data sheet, 13.1, and the other worked cases on a chip after reset, and prints for each
//
//   case NAME
//   answers A1 A2 ..                 one for each event, up to the first refused one
//   done N refusal R unknown U out-of-range O
//                                    of a run over all events on a fresh chip, R 0 if none; U and O of its commands were so answered
//   record W0 W1 .. W37 COUNT        after that run
//   cell COLUMN BANK BYTE EVENT      for each written place, by bank, then column
//   pulses ROW 5 P0 P1 P2 P3         for each of the glass's rows 8 to 11 that is lit in column 5
#![tactic(auto)]

mod cases;
mod example;

use print::Printout;

// What is played: on a chip with these pins.
#[derive(Clone, Copy)]
struct Case<'a> {
    name: &'a [u8],
    pins: u64,
    events: &'a [u16],
}

impl<'a> Case<'a> {
    fn new(name: &'a [u8], pins: u64, events: &'a [u16]) -> Case<'a> {
        Case { name, pins, events }
    }
}

// The number after a blank.
fn number(n: u64, out: &mut Printout) {
    out.byte(b' ');
    out.decimal(n);
}

// A word, and a number after it.
fn told(word: &[u8], n: u64, out: &mut Printout) {
    out.bytes(word);
    number(n, out);
}

// The events one by one, up to the first refused one.
fn answers(
    record: &mut [u64],
    memory: &mut [u8],
    writers: &mut [u64],
    events: &[u16],
    out: &mut Printout,
) {
    let mut count = 0;
    for event in events {
        let answer = host::pcf8820_step(record, memory, writers, &mut count, *event);
        number(answer, out);
        if answer < 256 {
            return;
        }
    }
}

fn words(record: &[u64], out: &mut Printout) {
    for word in record {
        number(*word, out);
    }
}

// A place that no event has written is left out.
fn cell(place: u64, byte: u8, writer: u64, out: &mut Printout) {
    if writer == 0 {
        return;
    }
    told(b"cell", place % 101, out);
    number(place / 101, out);
    number(u64::from(byte), out);
    number(writer, out);
    out.byte(b'\n');
}

fn cells(memory: &[u8; 1717], writers: &[u64; 1717], out: &mut Printout) {
    for place in 0..1717 {
        cell(place as u64, memory[place], writers[place], out);
    }
}

// In the four frames; a pixel that is not lit is left out.
fn pulses(record: &[u64], memory: &[u8], row: u64, out: &mut Printout) {
    let word = host::pcf8820_pulses(record, memory, row, 5);
    if word < 4294967296 {
        return;
    }
    told(b"pulses", row, out);
    number(5, out);
    number(word % 256, out);
    number(word / 256 % 256, out);
    number(word / 65536 % 256, out);
    number(word / 16777216 % 256, out);
    out.byte(b'\n');
}

// The record after a power-on reset, with the counts of a counting start over this memory.
fn begin(memory: &[u8], pins: u64) -> [u64; 38] {
    let mut record = [0; 38];
    host::pcf8820_reset(&mut record, pins);
    let mut zeros = 0;
    let mut ones = 0;
    let mut twos = 0;
    let mut threes = 0;
    host::counts_call::pcf8820_counts(memory, &mut zeros, &mut ones, &mut twos, &mut threes);
    record[34] = zeros;
    record[35] = ones;
    record[36] = twos;
    record[37] = threes;
    record
}

fn step_by_step(case: Case, out: &mut Printout) {
    let mut memory = [0; 1717];
    let mut writers = [0; 1717];
    let mut record = begin(&memory, case.pins);
    out.bytes(b"answers");
    answers(&mut record, &mut memory, &mut writers, case.events, out);
    out.byte(b'\n');
}

// All events in one run, and what it gives.
fn run(
    record: &mut [u64],
    memory: &mut [u8],
    writers: &mut [u64],
    count: &mut u64,
    events: &[u16],
    out: &mut Printout,
) {
    let mut done = 0;
    let mut unknown = 0;
    let mut out_of_range = 0;
    let refusal = host::pcf8820_run(
        record,
        memory,
        writers,
        count,
        events,
        &mut done,
        &mut unknown,
        &mut out_of_range,
    );
    told(b"done", done, out);
    told(b" refusal", refusal, out);
    told(b" unknown", unknown, out);
    told(b" out-of-range", out_of_range, out);
    out.byte(b'\n');
}

// The words of the record, and the count behind them.
fn record_line(record: &[u64], count: u64, out: &mut Printout) {
    out.bytes(b"record");
    words(record, out);
    number(count, out);
    out.byte(b'\n');
}

fn at_once(case: Case, out: &mut Printout) {
    let mut memory = [0; 1717];
    let mut writers = [0; 1717];
    let mut record = begin(&memory, case.pins);
    let mut count = 0;
    run(
        &mut record,
        &mut memory,
        &mut writers,
        &mut count,
        case.events,
        out,
    );
    record_line(&record, count, out);
    cells(&memory, &writers, out);
    for row in 8..12 {
        pulses(&record, &memory, row, out);
    }
}

fn case_text(case: Case, out: &mut Printout) {
    out.bytes(b"case ");
    out.bytes(case.name);
    out.byte(b'\n');
    step_by_step(case, out);
    at_once(case, out);
}

// No case has more than 4,096 bytes. Each is put out by itself; whether the system took it.
fn play(rt: &HostRuntime, case: Case) -> bool {
    let mut out = program_io::room::<4096>();
    let mut text = Printout {
        out: &mut out,
        at: 0,
    };
    case_text(case, &mut text);
    let length = text.at;
    program_io::put_text(rt, b"cases_run", &out, Ok(length))
}

// Up to the first that the system does not take; whether it took all.
fn play_all(rt: &HostRuntime, cases: &[Case]) -> bool {
    for case in cases {
        if !play(rt, *case) {
            return false;
        }
    }
    true
}

// X and Y commands, and the address counter at its ends.
fn addresses(rt: &HostRuntime) -> bool {
    play_all(
        rt,
        &[
            Case::new(b"put-5-2-167", 0, &cases::PUT_5_2_167),
            Case::new(b"x-e4", 0, &cases::X_E4),
            Case::new(b"x-e5", 0, &cases::X_E5),
            Case::new(b"counter-v0-100-3", 0, &cases::COUNTER_V0_100_3),
            Case::new(b"counter-v1-7-16", 0, &cases::COUNTER_V1_7_16),
            Case::new(b"counter-v0-100-16", 0, &cases::COUNTER_V0_100_16),
            Case::new(b"counter-v1-100-16", 0, &cases::COUNTER_V1_100_16),
        ],
    )
}

// Six bits in bank 16, the swap before them, columns from the right.
fn stored_bytes(rt: &HostRuntime) -> bool {
    play_all(
        rt,
        &[
            Case::new(b"bank-16-ff", 0, &cases::BANK_16_FF),
            Case::new(b"bank-16-swapped", 0, &cases::BANK_16_SWAPPED),
            Case::new(b"mirror-x", 0, &cases::MIRROR_X),
        ],
    )
}

// The status byte, and what is read in its place.
fn reads(rt: &HostRuntime) -> bool {
    play_all(
        rt,
        &[
            Case::new(b"sensor", 0, &cases::SENSOR),
            Case::new(b"sensor-in-power-down", 0, &cases::SENSOR_IN_POWER_DOWN),
            Case::new(b"read-rs-1", 0, &cases::READ_RS_1),
        ],
    )
}

// Addresses, control bytes, reset pulse, a refused event.
fn bus(rt: &HostRuntime) -> bool {
    play_all(
        rt,
        &[
            Case::new(b"other-address", 0, &cases::OTHER_ADDRESS),
            Case::new(b"address-pins-1", 1, &cases::ADDRESS_PINS_1),
            Case::new(b"reset-keeps-memory", 0, &cases::RESET_KEEPS_MEMORY),
            Case::new(b"refused-event", 0, &cases::REFUSED_EVENT),
            Case::new(b"endless-commands", 0, &cases::ENDLESS_COMMANDS),
            Case::new(b"single-data-bytes", 0, &cases::SINGLE_DATA_BYTES),
            Case::new(b"byte-while-reading", 0, &cases::BYTE_WHILE_READING),
        ],
    )
}

// Bytes of no row, addresses that there are not, the grey registers, rows that change nothing, and greys on the glass.
fn commands(rt: &HostRuntime) -> bool {
    play_all(
        rt,
        &[
            Case::new(b"unknown-commands", 0, &cases::UNKNOWN_COMMANDS),
            Case::new(
                b"taken-unknown-out-of-range",
                0,
                &cases::TAKEN_UNKNOWN_OUT_OF_RANGE,
            ),
            Case::new(b"grey-levels", 0, &cases::GREY_LEVELS),
            Case::new(b"row-block-swapping", 0, &cases::ROW_BLOCK_SWAPPING),
            Case::new(b"pulses-17-30-63", 0, &cases::PULSES_17_30_63),
        ],
    )
}

fn data_sheet(rt: &HostRuntime) -> bool {
    play(rt, Case::new(b"example-13.1", 0, &example::EVENTS))
}

fn all(rt: &HostRuntime) -> bool {
    data_sheet(rt) && addresses(rt) && stored_bytes(rt) && reads(rt) && bus(rt) && commands(rt)
}

// It ends at the first case that the system does not take, which has been said.
fn main(rt: HostRuntime) {
    all(&rt);
}
