// Samples of the two wires of the bus read from an open file in parts, in fixed memory; the text of each part is put on standard output as soon as it
// was read.
//
// What is done with the bytes that came is an equation, `take_in`; that their texts together are the capture of all bytes is `in_parts` in
// wire_text/proofs/Laws.antt. No contract can say which bytes came, nor that the texts were put: `capture` promises the unclear samples of what some
// answers of the system gave. That the file's own bytes are read and their text printed is tested, as for `capture_file`.
#![tactic(auto)]

ghost use Rattle.std.specs.Prelude.{◌≡◌};
ghost use Rattle.print.specs.Prints.{Prints};
ghost use Rattle.program_io.specs.Answers.{answer_of};
ghost use Rattle.wire_file.specs.Answers.{text_given, turned, taken_in};
ghost use Rattle.wire_file.specs.Some.{TurnOfSome, CaptureOfSome};

use print::Printout;
use program_io::reading::Source;
use std::io;
use std::io::Read;
use wire_text::Reading;

// What the bytes of one read come to.
#[derive(Clone, Copy)]
pub enum Turn {
    // There may be more to read.
    More(Reading),
    // There is no more, or it would change nothing; and why that read failed, if it did.
    Last(Reading, Option<io::Error>),
}

// How many samples were unclear. `failed` is the error with which reading stopped, if it did. Where not `printed`, the text could not be put,
// which has been said, and nothing more was read.
// kept (promise): CaptureOfSome tells the unclear samples and the failure where the text could not be put, too
#[derive(Clone, Copy)]
pub struct Captured {
    pub unclear: u64,
    pub failed: Option<io::Error>,
    pub printed: bool,
}

// What a read answered, and the buffer that it was lent. One that failed gives no text: where it is the first, the `pins` line is not printed either.
pub fn take_in(got: io::Result<usize>, buf: &[u8], reading: Reading, out: &mut Printout) -> Turn
    ensures result_value { turned result ≡ taken_in (answer_of got buf.now) reading }
    ensures told { Prints out.old (text_given (answer_of got buf.now) reading) out.new }
{
    let n = program_io::reading::count(got, buf);
    if let Err(error) = got {
        return Turn::Last(reading, Some(error));
    }
    let after = wire_text::tell(reading, &buf[..n], out);
    if 0 < n && !wire_text::is_over(after) {
        Turn::More(after)
    } else {
        Turn::Last(after, None)
    }
}

// One read. The buffer stands here, so that the loop knows nothing of it.
fn read_once(source: &mut Source, reading: Reading, out: &mut Printout) -> Turn
    ensures { TurnOfSome result out.old out.new reading }
{
    let mut buf = program_io::room::<65536>();
    let got = source.read(&mut buf);
    take_in(got, &buf, reading, out)
}

// The capture of the samples in a file that is open, for this program and these pins.
pub fn capture(rt: &HostRuntime, program: &[u8], source: &mut Source, pins: u8) -> Captured
    ensures { CaptureOfSome result pins }
{
    // Room for the text of a part: four bytes for each of its bytes, and 41 (`part-bound` in wire_text/proofs/Laws.antt).
    let mut room = program_io::room::<262185>();
    let mut reading = wire_text::start(pins);
    // Nothing says that an input ends. No run makes this many turns.
    for _ in 0..u64::MAX {
        let mut out = Printout {
            out: &mut room,
            at: 0,
        };
        let turn = read_once(source, reading, &mut out);
        let length = out.at;
        let printed = program_io::put_text(rt, program, &room, Ok(length));
        match turn {
            Turn::More(after) if printed => reading = after,
            Turn::More(after) => {
                return Captured {
                    unclear: after.wires.unclear,
                    failed: None,
                    printed,
                };
            }
            Turn::Last(after, failed) => {
                return Captured {
                    unclear: after.wires.unclear,
                    failed,
                    printed,
                };
            }
        }
    }
    Captured {
        unclear: reading.wires.unclear,
        failed: None,
        printed: true,
    }
}
