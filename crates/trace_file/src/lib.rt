// A capture read from an open file in parts, in fixed memory, and followed as it comes: the line of each event is put on standard output as soon as
// the part that has it was read.
//
// What is done with the bytes that came is an equation, `take_in`. No contract can say which bytes those are, nor that the lines were put: `follow`
// promises of the end, the memories and the tally that they are those of what some answers of the system gave. That the file's own bytes are followed
// and their lines printed is tested, as for `capture_file`.
#![tactic(auto)]

ghost use Rattle.std.specs.Prelude.{◌≡◌};
ghost use Rattle.program_io.specs.Answers.{answer_of, bytes_of};
ghost use Rattle.capture.specs.Feeding.{kept};
ghost use Rattle.capture_file.specs.Answers.{turned, taken_in};
ghost use Rattle.print.specs.Prints.{Prints};
ghost use Rattle.capture_trace.specs.Done.{done_in_part};
ghost use Rattle.capture_trace.specs.Follow.{told_lines, tallied_over};
ghost use Rattle.trace_file.specs.Some.{StepOfSome, FollowOfSome};

use capture::End;
use capture_file::Turn;
use capture_trace::Course;
use capture_trace::tally::Tally;
use print::Printout;
use program_io::reading::Source;
use refusals::Refusal;
use std::io;
use std::io::Read;

// What the bytes of one read come to, and the tally after them.
#[derive(Clone, Copy)]
pub struct Step {
    pub turn: Turn,
    pub tally: Tally,
}

// What was read comes to `end`, and was tallied so. `failed` is the error with which reading stopped, if it did. Where not `printed`, the lines could
// not be put, which has been said, and nothing more was read.
// kept (promise): FollowOfSome tells the end, the tally and the failure where the lines could not be put, too
#[derive(Clone, Copy)]
pub struct Followed {
    pub end: Result<End, Refusal>,
    pub tally: Tally,
    pub failed: Option<io::Error>,
    pub printed: bool,
}

// What a read answered, and the buffer that it was lent. One that failed gave no byte, and neither does one at the end of the input. Where `told`,
// the lines of the events are printed.
pub fn take_in(
    got: io::Result<usize>,
    buf: &[u8],
    told: bool,
    course: Course,
    memory: &mut [u8],
    writers: &mut [u64],
    out: &mut Printout,
) -> Step
    ensures writers_after { turned result.turn course.capture memory.new writers.new
        ≡ taken_in (answer_of got buf.now) (kept course.capture memory.old writers.old) }
    ensures tally_value { result.tally ≡ tallied_over (done_in_part (bytes_of (answer_of got buf.now))
        (kept course.capture memory.old writers.old)) course.tally }
    ensures prints { Prints out.old (told_lines told (done_in_part (bytes_of (answer_of got buf.now))
        (kept course.capture memory.old writers.old))) out.new }
{
    let n = program_io::reading::count(got, buf);
    match capture_trace::follow(course, told, memory, writers, &buf[..n], out) {
        Ok(after) => Step {
            turn: capture_file::after_read(got, buf, Ok(after.capture)),
            tally: after.tally,
        },
        Err(refusal) => Step {
            turn: capture_file::after_read(got, buf, Err(refusal)),
            tally: course.tally,
        },
    }
}

// One read. The buffer stands here, so that the loop knows nothing of it.
fn read_once(
    source: &mut Source,
    told: bool,
    course: Course,
    memory: &mut [u8],
    writers: &mut [u64],
    out: &mut Printout,
) -> Step
    ensures { StepOfSome result told course.capture course.tally out.old memory.new writers.new out.new
        (kept course.capture memory.old writers.old) }
{
    let mut buf = program_io::room::<4096>();
    let got = source.read(&mut buf);
    take_in(got, &buf, told, course, memory, writers, out)
}

// The capture in a file that is open, for this program. The memories are those that the events write; at the start of a capture they are lent as
// zeros. Nothing is read where one of them has another length. Where `told`, each event's line is put.
pub fn follow(
    rt: &HostRuntime,
    program: &[u8],
    source: &mut Source,
    told: bool,
    memory: &mut [u8],
    writers: &mut [u64],
) -> Followed
    ensures { FollowOfSome result memory.new writers.new memory.old writers.old }
{
    let tally = Tally::none();
    let mut course = match capture::feed(capture::start(), memory, writers, b"") {
        Ok(capture) => Course { capture, tally },
        Err(refusal) => {
            return Followed {
                end: Err(refusal),
                tally,
                failed: None,
                printed: true,
            };
        }
    };
    // The lines of a part of 4,096 bytes: a byte makes at most 74 (`part-bound` in capture_trace/proofs/Laws.antt).
    let mut room = program_io::room::<303104>();
    // Nothing says that an input ends. No run makes this many turns.
    for _ in 0..u64::MAX {
        let mut lines = Printout {
            out: &mut room,
            at: 0,
        };
        let step = read_once(source, told, course, memory, writers, &mut lines);
        let length = lines.at;
        let printed = program_io::put_text(rt, program, &room, Ok(length));
        match step.turn {
            Turn::More(capture) => {
                course = Course {
                    capture,
                    tally: step.tally,
                };
                if !printed {
                    return Followed {
                        end: capture::finish(Ok(capture)),
                        tally: step.tally,
                        failed: None,
                        printed,
                    };
                }
            }
            Turn::Last(fed, failed) => {
                return Followed {
                    end: capture_file::finish(fed),
                    tally: step.tally,
                    failed,
                    printed,
                };
            }
        }
    }
    Followed {
        end: capture::finish(Ok(course.capture)),
        tally: course.tally,
        failed: None,
        printed: true,
    }
}
