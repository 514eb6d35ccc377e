// A capture read in parts of any size, and played on a chip as it comes: document 01, "Replay listing".
#![tactic(auto)]

ghost use Rattle.std.specs.Prelude.{◌≡◌, ◌≤◌, length};
ghost use Rattle.refusals.specs.Numbers.{numbered};
ghost use Rattle.capture.specs.Feeding.{kept, start_of, bytes_fed, fed_by, feed_of, end_of, finish_fed, is_over_fed};
ghost use Rattle.capture.specs.Lines.{PartlyFed};
ghost use Rattle.capture.specs.Where.{Passed};

use crate::play::LinesPlayed;
use capture_lines::LineSoFar;
use refusals::Refusal;
use registers::Chip;

pub mod play;
pub mod refusal;

// The chip after the events so far, how many they were, and the present line. Before the end of the first line the pins are not known
// and the pixels not counted, and the chip stands with pins 0 as for a cleared memory.
#[derive(Clone, Copy, Debug, PartialEq, Eq, Hash)]
pub struct Capture {
    pub chip: Chip,
    pub count: u64,
    pub line: LineSoFar,
}

// What a capture comes to, with the chip and the count of its events. A bad event line is the line after those and the first line:
// count + 2, a number that need not fit 64 bits.
#[derive(Clone, Copy, Debug, PartialEq, Eq, Hash)]
pub enum End {
    BadFirst,
    Bad(Chip, u64),
    Whole(Chip, u64),
}

// Before the first byte.
pub fn start() -> Capture
    ensures { result ≡ start_of }
{
    Capture {
        chip: Chip::reset(0),
        count: 0,
        line: LineSoFar::First(0),
    }
}

// Where no line has begun, the whole event lines from a place of a part on are played. Where one has, or none stands there whole, nothing is.
fn whole_lines(
    capture: Capture,
    memory: &mut [u8],
    writers: &mut [u64],
    part: &[u8],
    from: usize,
) -> LinesPlayed
    requires passed { Passed (kept capture memory.old writers.old) }
    requires from_in_bounds { from ≤ length part.now }
    ensures { PartlyFed part.now from (kept capture memory.old writers.old)
        (kept result.capture memory.new writers.new) result.at }
{
    match capture.line {
        LineSoFar::Empty => play::event_lines(capture, memory, writers, part, from),
        _ => LinesPlayed { capture, at: from },
    }
}

// The bytes of a part that is not refused: whole lines many at a time, and what these leave byte by byte up to the next newline.
fn feed_bytes(capture: Capture, memory: &mut [u8], writers: &mut [u64], part: &[u8]) -> Capture
    requires { Passed (kept capture memory.old writers.old) }
    ensures { kept result memory.new writers.new
        ≡ bytes_fed part.now (kept capture memory.old writers.old) }
{
    let mut fed = capture;
    let mut at = 0;
    // kept (no plainer): the place is moved on by two readers, each as far as it read, so that no range and no iterator counts it
    while at < part.len() {
        let lines = whole_lines(fed, memory, writers, part, at);
        let scanned = capture_lines::scan(lines.capture.line, part, lines.at);
        fed = Capture {
            line: scanned.line,
            ..lines.capture
        };
        at = scanned.at;
        if at < part.len() {
            fed = play::end_line(fed, memory, writers);
            at += 1;
        }
    }
    fed
}

// The next bytes, any number of them. The memories are those that the events write; at the start of a capture they are lent as zeros.
// Refused by 1 or 2, also with no bytes; then nothing is changed.
pub fn feed(
    capture: Capture,
    memory: &mut [u8],
    writers: &mut [u64],
    part: &[u8],
) -> Result<Capture, Refusal>
    ensures { fed_by result capture memory.new writers.new
        ≡ feed_of part.now (kept capture memory.old writers.old) }
{
    refusal::of_part(capture, memory.len(), writers.len())?;
    Ok(feed_bytes(capture, memory, writers, part))
}

fn end_of(capture: Capture) -> End
    ensures { result ≡ end_of capture.line capture.chip capture.count }
{
    match capture.line {
        LineSoFar::Empty => End::Whole(capture.chip, capture.count),
        LineSoFar::Number(_) | LineSoFar::Bad => End::Bad(capture.chip, capture.count),
        LineSoFar::First(_) | LineSoFar::Pins(_) | LineSoFar::BadFirst => End::BadFirst,
    }
}

// No byte follows what the last part came to: a line that is not ended by its newline is bad. Refused as that part was, or by 2 where what was kept
// is not allowed.
pub fn finish(fed: Result<Capture, Refusal>) -> Result<End, Refusal>
    ensures { numbered result ≡ finish_fed fed }
{
    let capture = fed?;
    refusal::of_kept(capture)?;
    Ok(end_of(capture))
}

// Whether nothing that follows changes what the capture comes to: the last part was refused, or a line.
pub fn is_over(fed: Result<Capture, Refusal>) -> bool
    ensures { result ≡ is_over_fed fed }
{
    match fed {
        Ok(capture) => capture_lines::is_refused(capture.line),
        Err(_) => true,
    }
}
