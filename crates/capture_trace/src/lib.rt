// A capture followed event by event as it comes in parts: how many bytes from the master were acknowledged, and, where that is asked for, a line for
// each event. It is played as `capture` plays it.
#![tactic(auto)]

ghost use Rattle.std.specs.Prelude.{◌≡◌};
ghost use Rattle.print.specs.Prints.{Prints};
ghost use Rattle.capture.specs.Feeding.{kept, bytes_fed, fed_by, feed_of};
ghost use Rattle.capture.specs.Where.{Passed};
ghost use Rattle.capture_trace.specs.Done.{done_in_bytes, done_in_part};
ghost use Rattle.capture_trace.specs.Follow.{told_lines, tallied_over};
ghost use Rattle.capture_trace.specs.Courses.{capture_in, tally_in};

use crate::event::end_line;
use crate::tally::Tally;
use capture::Capture;
use print::Printout;
use refusals::Refusal;

mod event;
pub mod tally;

// Where a capture stands, and what was tallied so far.
#[derive(Clone, Copy, Debug, PartialEq, Eq, Hash)]
pub struct Course {
    pub capture: Capture,
    pub tally: Tally,
}

// The bytes of a part that is not refused.
fn follow_bytes(
    course: Course,
    told: bool,
    memory: &mut [u8],
    writers: &mut [u64],
    part: &[u8],
    out: &mut Printout,
) -> Course
    requires { Passed (kept course.capture memory.old writers.old) }
    ensures count_after { kept result.capture memory.new writers.new
        ≡ bytes_fed part.now (kept course.capture memory.old writers.old) }
    ensures tally_value { result.tally
        ≡ tallied_over (done_in_bytes part.now (kept course.capture memory.old writers.old)) course.tally }
    ensures prints { Prints out.old
        (told_lines told (done_in_bytes part.now (kept course.capture memory.old writers.old))) out.new }
{
    let mut followed = course;
    let mut at = 0;
    // kept (no plainer): the place is moved on by the scan of a line, as far as it read, so that no range and no iterator counts it
    while at < part.len() {
        let scanned = capture_lines::scan(followed.capture.line, part, at);
        followed.capture.line = scanned.line;
        at = scanned.at;
        if at < part.len() {
            followed = end_line(followed, told, memory, writers, out);
            at += 1;
        }
    }
    followed
}

// The next bytes, any number of them, after those that `course` comes from. The memories are as for `capture::feed`, and so is a refusal, which changes
// nothing. Where `told`, the line of each event is printed; a byte of a part makes at most 74 bytes of them (`part-bound`).
pub fn follow(
    course: Course,
    told: bool,
    memory: &mut [u8],
    writers: &mut [u64],
    part: &[u8],
    out: &mut Printout,
) -> Result<Course, Refusal>
    ensures writers_after { fed_by (capture_in result) course.capture memory.new writers.new
        ≡ feed_of part.now (kept course.capture memory.old writers.old) }
    ensures tally_value { tally_in result course.tally
        ≡ tallied_over (done_in_part part.now (kept course.capture memory.old writers.old)) course.tally }
    ensures prints { Prints out.old
        (told_lines told (done_in_part part.now (kept course.capture memory.old writers.old))) out.new }
{
    capture::refusal::of_part(course.capture, memory.len(), writers.len())?;
    Ok(follow_bytes(course, told, memory, writers, part, out))
}
