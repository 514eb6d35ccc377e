// Whole lines: their events are played. The entry of the part has tested 1 and 2, and neither is tested at an event.
ghost use Rattle.std.specs.Prelude.{◌≡◌};
ghost use Rattle.refusals.specs.Numbers.{number_of};
ghost use Rattle.registers.specs.State.{state};
ghost use Rattle.chip.specs.Promised.{run_past_entry};
ghost use Rattle.capture.specs.Feeding.{kept, line_after, played, ended_past_entry};
ghost use Rattle.capture.specs.Lines.{LinesRun};

use crate::Capture;
use capture_lines::LineSoFar;
use refusals::Refusal;
use registers::Chip;

// What is kept after event lines of a part, and the place behind them.
#[derive(Clone, Copy, Debug, PartialEq, Eq, Hash)]
pub struct LinesPlayed {
    pub capture: Capture,
    pub at: usize,
}

// The line after events: none after one that was refused.
fn line_after(refusal: Option<Refusal>) -> LineSoFar
    ensures { result ≡ line_after (number_of refusal) }
{
    match refusal {
        None => LineSoFar::Empty,
        Some(_) => LineSoFar::Bad,
    }
}

// Where a program wants no answers, it alone calls the run, and the run is compiled into it; one that wants them reaches the run by a step too.
fn play(events: &[u16], capture: Capture, memory: &mut [u8], writers: &mut [u64]) -> Capture
    ensures { kept result memory.new writers.new
        ≡ played (run_past_entry 0 events.now (state capture.chip memory.old writers.old capture.count)) }
{
    let ran = engine::past_entry::run(capture.chip, capture.count, memory, writers, events);
    Capture {
        chip: ran.chip,
        count: ran.count,
        line: line_after(ran.refusal),
    }
}

// Event lines from a place of a part on, as many whole ones as are read at a time, played in one run; none where fewer than four bytes are left.
// Whatever line was kept is passed over: none has begun.
pub fn event_lines(
    capture: Capture,
    memory: &mut [u8],
    writers: &mut [u64],
    part: &[u8],
    from: usize,
) -> LinesPlayed
    ensures { LinesRun part.now from (state capture.chip memory.old writers.old capture.count)
        (kept result.capture memory.new writers.new) result.at }
{
    if capture_lines::end_of_fours(part.len()) <= from {
        return LinesPlayed {
            capture: Capture {
                line: LineSoFar::Empty,
                ..capture
            },
            at: from,
        };
    }
    let mut events = [0u16; 4096];
    let read = capture_lines::event_lines(part, from, &mut events);
    LinesPlayed {
        capture: play(&events[..read.count], capture, memory, writers),
        at: read.at,
    }
}

// A newline: the line is whole.
#[tactic(auto, unfolding(crate::specs::Feeding::ended_past_entry, crate::specs::Feeding::ended_line))]
pub fn end_line(capture: Capture, memory: &mut [u8], writers: &mut [u64]) -> Capture
    ensures { kept result memory.new writers.new
        ≡ ended_past_entry capture.line (state capture.chip memory.old writers.old capture.count) }
{
    match capture.line {
        LineSoFar::First(_) | LineSoFar::BadFirst => Capture {
            line: LineSoFar::BadFirst,
            ..capture
        },
        LineSoFar::Pins(pins) => Capture {
            chip: Chip::reset(pins).with_pixels(pixel_counts::of_memory(memory)),
            count: 0,
            line: LineSoFar::Empty,
        },
        LineSoFar::Empty | LineSoFar::Bad => Capture {
            line: LineSoFar::Bad,
            ..capture
        },
        LineSoFar::Number(event) => play(&[event], capture, memory, writers),
    }
}
