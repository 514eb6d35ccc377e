// A capture read from an open file in parts, in fixed memory, and played as it comes.
//
// What is done with the bytes that came is an equation, `take_in`. No contract can say which bytes those are: `play` promises the replay of what some
// answers of the system gave, and a program that never reads, as if each answer were 0 bytes, meets that too. That the file's own bytes are played is
// tested: tests/programs compares the programs with the model's on files and pipes, cut at every place.
#![tactic(auto)]

ghost use Rattle.std.specs.Prelude.{◌≡◌, List, ℕ};
ghost use Rattle.refusals.specs.Numbers.{numbered};
ghost use Rattle.program_io.specs.Answers.{answer_of};
ghost use Rattle.capture.specs.Feeding.{kept, fed_by, finish_fed};
ghost use Rattle.capture.specs.declared.Capture.{Capture};
ghost use Rattle.capture_file.specs.Answers.{turned, turn_of, taken_in};
ghost use Rattle.capture_file.specs.Played.{TurnOfSome, ReplayOfSome};

use capture::{Capture, End};
use program_io::reading::Source;
use refusals::Refusal;
use std::io;
use std::io::Read;

// What the bytes of one read come to.
#[derive(Clone, Copy)]
pub enum Turn {
    // There may be more to read.
    More(Capture),
    // There is no more, or it would change nothing; and why that read failed, if it did.
    Last(Result<Capture, Refusal>, Option<io::Error>),
}

// What was read comes to `end`; `failed` is the error with which reading stopped, if it did.
#[derive(Clone, Copy)]
pub struct Played {
    pub end: Result<End, Refusal>,
    pub failed: Option<io::Error>,
}

// What a read answered, and the buffer that it was lent, once the bytes were fed. One that failed gave no byte, and neither does one at the end of the
// input.
pub fn after_read(got: io::Result<usize>, buf: &[u8], fed: Result<Capture, Refusal>) -> Turn
    ensures { (before : Capture) (m w : List ℕ) → turned result before m w ≡ turn_of (answer_of got buf.now) (fed_by fed before m w) }
{
    match fed {
        Ok(capture) if 0 < program_io::reading::count(got, buf) && !capture::is_over(fed) => {
            Turn::More(capture)
        }
        _ => Turn::Last(fed, got.err()),
    }
}

// The same with the feeding.
pub fn take_in(
    got: io::Result<usize>,
    buf: &[u8],
    capture: Capture,
    memory: &mut [u8],
    writers: &mut [u64],
) -> Turn
    ensures { turned result capture memory.new writers.new
        ≡ taken_in (answer_of got buf.now) (kept capture memory.old writers.old) }
{
    let n = program_io::reading::count(got, buf);
    after_read(got, buf, capture::feed(capture, memory, writers, &buf[..n]))
}

// What a capture comes to that is fed no more.
pub fn finish(fed: Result<Capture, Refusal>) -> Result<End, Refusal>
    ensures { numbered result ≡ finish_fed fed }
{
    capture::finish(fed)
}

// One read. The buffer stands here, so that the loop knows nothing of it.
fn read_once(source: &mut Source, capture: Capture, memory: &mut [u8], writers: &mut [u64]) -> Turn
    ensures { TurnOfSome result capture memory.new writers.new (kept capture memory.old writers.old) }
{
    let mut buf = program_io::room::<65536>();
    let got = source.read(&mut buf);
    take_in(got, &buf, capture, memory, writers)
}

// The capture in a file that is open. The memories are those that the events write; at the start of a capture they are lent as zeros. Nothing is
// read where one of them has another length.
pub fn play(source: &mut Source, memory: &mut [u8], writers: &mut [u64]) -> Played
    ensures { ReplayOfSome result memory.new writers.new memory.old writers.old }
{
    let mut capture = match capture::feed(capture::start(), memory, writers, b"") {
        Ok(begun) => begun,
        Err(refusal) => {
            return Played {
                end: Err(refusal),
                failed: None,
            };
        }
    };
    // Nothing says that an input ends. No run makes this many turns.
    for _ in 0..u64::MAX {
        match read_once(source, capture, memory, writers) {
            Turn::More(next) => capture = next,
            Turn::Last(fed, failed) => {
                return Played {
                    end: finish(fed),
                    failed,
                };
            }
        }
    }
    Played {
        end: capture::finish(Ok(capture)),
        failed: None,
    }
}
