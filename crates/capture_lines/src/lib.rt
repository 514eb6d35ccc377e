// A line of a capture, read byte by byte from parts of any size; and the whole event lines of a part, read many at a time.
#![tactic(auto)]

ghost use Rattle.std.specs.Prelude.{◌≡◌, ◌-◌, length, drop};
ghost use Rattle.capture_lines.specs.SoFar.{is_refused, scanned_from};
ghost use Rattle.capture_lines.specs.Events.{lines_from, counted, over, LinesRead, NoneLeft};

mod bytes;
mod event;

// What has been read of the present line, its newline not among it.
#[derive(Clone, Copy, Debug, PartialEq, Eq, Hash)]
pub enum LineSoFar {
    // The first line: how many bytes of `pins` and the tab behind it.
    First(u8),
    // The first line up to its digit, the pins.
    Pins(u8),
    // An event line: nothing yet.
    Empty,
    // An event line: the digits of this number.
    Number(u16),
    // The first line was bad: refused, whatever comes.
    BadFirst,
    // A later line was bad, or its event refused: refused, whatever comes.
    Bad,
}

// A line, and the place up to which it has been read.
#[derive(Clone, Copy, Debug, PartialEq, Eq, Hash)]
pub struct Scanned {
    pub line: LineSoFar,
    pub at: usize,
}

// The line with the bytes from a place on, up to the next newline or to the end of the part. Nearly all of them are the digits of an event
// line, so these have a loop of their own, over a number alone.
pub fn scan(line: LineSoFar, part: &[u8], from: usize) -> Scanned
    ensures { result ≡ scanned_from from (drop from part.now) line }
{
    let begun = bytes::digits(line, part, from);
    bytes::scan_bytes(begun.line, part, begun.at)
}

// Whether the capture is refused at this line or at one before it: then no later byte changes anything.
pub fn is_refused(line: LineSoFar) -> bool
    ensures { result ≡ is_refused line }
{
    matches!(line, LineSoFar::BadFirst | LineSoFar::Bad)
}

// How many event lines were read, and the place behind them.
#[derive(Clone, Copy, Debug, PartialEq, Eq, Hash)]
pub struct EventLines {
    pub count: usize,
    pub at: usize,
}

// Four bytes stand at each place below this one, and at no other.
pub fn end_of_fours(len: usize) -> usize
    ensures { result ≡ len - 3 }
{
    len.saturating_sub(3)
}

// Whole event lines from a place on, as many as `events` has room for, up to the first that is bad or that the end of the part is too near to: four
// bytes are looked at. Their numbers are written to `events`, from its start; what stands behind them there stays as it was.
pub fn event_lines(part: &[u8], from: usize, events: &mut [u16]) -> EventLines
    ensures lines_read { LinesRead part.now from events.new result }
    ensures none_left { NoneLeft part.now events.new result }
    ensures value { result ≡ counted (lines_from (length events.old) part.now from) }
    ensures events_after { events.new ≡ over events.old (lines_from (length events.old) part.now from) }
{
    let mut at = from;
    let end = end_of_fours(part.len());
    for count in 0..events.len() {
        if end <= at {
            return EventLines { count, at };
        }
        let Some(line) = event::line_in(part[at], part[at + 1], part[at + 2], part[at + 3]) else {
            return EventLines { count, at };
        };
        events[count] = line.event;
        at += line.bytes;
    }
    EventLines {
        count: events.len(),
        at,
    }
}
