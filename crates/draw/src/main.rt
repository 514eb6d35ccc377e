// draw PINS [LIST]: prints the capture that plays a drawing list on a chip after reset, or the one line that says why the compiler refuses it; then a
// sentence on standard error says the same in words. The list is the file that LIST names, or standard input. Nothing is printed before the whole
// list is known to be good. `title` is what a message about the list begins with.
#![tactic(auto)]

mod input;
mod output;
mod refusal;

use compiler::answer::CompileError;
use program_io::reading::{Source, read_full};
use refusals::Refusal;
use registers::Chip;

// Tells why the list is refused, and the line, which is 0 where none is to blame.
fn refuse(rt: &HostRuntime, title: &[u8], refusal: Refusal, line: u64) {
    if output::refused(rt, refusal, line) {
        refusal::explain(rt, title, refusal, line);
    }
}

// Whether the compiler takes the list. It is asked with no room for events: that there is none then says that the list is good.
fn is_good(rt: &HostRuntime, chip: Chip, list: &[u8], title: &[u8]) -> bool {
    match compiler::compile(chip, list, &mut []) {
        Ok(_) | Err(CompileError::Short { .. }) => true,
        Err(CompileError::Refused(refusal)) => {
            refuse(rt, title, refusal, 0);
            false
        }
        Err(CompileError::BadLine { refusal, line }) => {
            refuse(rt, title, refusal, line as u64);
            false
        }
    }
}

// The chip and the count after the events of a line.
#[derive(Clone, Copy)]
struct Drawn {
    chip: Chip,
    count: u64,
}

// One line's events, printed and played: the next line is compiled for the registers that they leave. None where they could not be printed.
fn draw_line(
    rt: &HostRuntime,
    now: Drawn,
    line: &[u8],
    out: &mut [u16],
    memory: &mut [u8],
    writers: &mut [u64],
) -> Option<Drawn> {
    let Ok(compiled) = compiler::compile(now.chip, line, out) else {
        return Some(now);
    };
    let Some(events) = out.get(..compiled.length) else {
        return Some(now);
    };
    if !output::events(rt, events) {
        return None;
    }
    let ran = engine::run::run(now.chip, now.count, memory, writers, events);
    Some(Drawn {
        chip: ran.chip,
        count: ran.count,
    })
}

// Line by line, so that the stream of a long list, millions of events, is never held as a whole. It ends at the first that can't be printed.
// No line has more than 2,727 events, those of a fill of the whole glass column by column.
fn draw(rt: &HostRuntime, chip: Chip, list: &[u8]) {
    let mut out = [0u16; 2727];
    let mut memory = [0u8; 1717];
    let mut writers = [0u64; 1717];
    let mut now = Drawn { chip, count: 0 };
    for line in list.split_inclusive(|byte| *byte == b'\n') {
        let Some(drawn) = draw_line(rt, now, line, &mut out, &mut memory, &mut writers) else {
            return;
        };
        now = drawn;
    }
}

// The whole list is read into room for the longest; one that does not fit is refused.
fn draw_from(rt: &HostRuntime, source: &mut Source, pins: u8, title: &[u8]) {
    let mut room = program_io::room::<1048576>();
    match read_full(source, &mut room) {
        Ok(n) => {
            let chip = Chip::reset(pins);
            let list = &room[..n];
            if input::ended(rt, source, title)
                && is_good(rt, chip, list, title)
                && output::first_line(rt, pins)
            {
                draw(rt, chip, list);
            }
        }
        Err(error) => program_io::say_error(rt, title, error),
    }
}

fn wrong_call(rt: &HostRuntime, fault: &[u8]) {
    program_io::wrong_call(rt, b"draw", fault, b"draw PINS [LIST]");
}

fn main(rt: HostRuntime) {
    if program_io::helped(&rt, b"draw", b"draw PINS [LIST]") {
        return;
    }
    if !program_io::is_given(&rt, 1) {
        wrong_call(&rt, b"too few arguments");
        return;
    }
    if program_io::is_given(&rt, 3) {
        wrong_call(&rt, b"too many arguments");
        return;
    }
    match program_io::number_given(&rt, 1) {
        Some(pins @ 0..=3) => program_io::with_input(&rt, b"draw", 2, |source, title| {
            draw_from(&rt, source, pins as u8, title)
        }),
        _ => wrong_call(&rt, b"PINS is not 0, 1, 2 or 3"),
    }
}
