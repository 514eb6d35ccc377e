// A newline: the line is whole, its event is played, tallied, and told where that is asked for. The entry of the part has tested 1 and 2, and neither is
// tested at an event.
ghost use Rattle.std.specs.Prelude.{◌≡◌};
ghost use Rattle.registers.specs.State.{state};
ghost use Rattle.print.specs.Prints.{Prints};
ghost use Rattle.engine.specs.Answer.{told as told_answer};
ghost use Rattle.chip.specs.Promised.{Fit};
ghost use Rattle.capture_lines.specs.declared.LineSoFar.TheVariants.{Number};
ghost use Rattle.capture.specs.Feeding.{kept, ended_line, ended_past_entry};
ghost use Rattle.capture_trace.specs.Done.{done_at_end};
ghost use Rattle.capture_trace.specs.Follow.{told_line, told_lines, tallied_over};

use crate::Course;
use capture::Capture;
use capture_lines::LineSoFar;
use engine::answer::Answer;
use print::Printout;
use refusals::Refusal;

fn tell(
    told: bool,
    event: u16,
    before: Capture,
    answer: Result<Answer, Refusal>,
    out: &mut Printout,
)
    ensures { Prints out.old (told_line told event before.chip before.count (told_answer answer)) out.new }
{
    if told {
        event_words::line(event, before.chip, before.count, answer, out);
    }
}

// One event. A refused one is not told.
fn play(
    event: u16,
    course: Course,
    told: bool,
    memory: &mut [u8],
    writers: &mut [u64],
    out: &mut Printout,
) -> Course
    requires { Fit (state course.capture.chip memory.old writers.old course.capture.count) }
    ensures count_after { kept result.capture memory.new writers.new
        ≡ ended_line (Number event) (state course.capture.chip memory.old writers.old course.capture.count) }
    ensures tally_value { result.tally
        ≡ tallied_over (done_at_end (Number event) (state course.capture.chip memory.old writers.old course.capture.count)) course.tally }
    ensures prints { Prints out.old
        (told_lines told (done_at_end (Number event) (state course.capture.chip memory.old writers.old course.capture.count))) out.new }
{
    let before = course.capture;
    let stepped = engine::past_entry::step(event, before.chip, before.count, memory, writers);
    let Ok(_) = stepped.answer else {
        return Course {
            capture: Capture {
                chip: stepped.chip,
                count: stepped.count,
                line: LineSoFar::Bad,
            },
            tally: course.tally,
        };
    };
    tell(told, event, before, stepped.answer, out);
    Course {
        capture: Capture {
            chip: stepped.chip,
            count: stepped.count,
            line: LineSoFar::Empty,
        },
        tally: course.tally.with(stepped.answer),
    }
}

// A line that is no event's is ended as `capture` ends it.
pub fn end_line(
    course: Course,
    told: bool,
    memory: &mut [u8],
    writers: &mut [u64],
    out: &mut Printout,
) -> Course
    requires { Fit (state course.capture.chip memory.old writers.old course.capture.count) }
    ensures count_after { kept result.capture memory.new writers.new
        ≡ ended_line course.capture.line (state course.capture.chip memory.old writers.old course.capture.count) }
    ensures tally_value { result.tally
        ≡ tallied_over (done_at_end course.capture.line (state course.capture.chip memory.old writers.old course.capture.count)) course.tally }
    ensures prints { Prints out.old
        (told_lines told (done_at_end course.capture.line (state course.capture.chip memory.old writers.old course.capture.count))) out.new }
{
    match course.capture.line {
        LineSoFar::Number(event) => play(event, course, told, memory, writers, out),
        _ => Course {
            capture: capture::play::end_line(course.capture, memory, writers),
            ..course
        },
    }
}
