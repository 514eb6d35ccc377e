// What a bus event is, in words, and how it is answered: a line for each event.
#![tactic(auto)]

ghost use Rattle.std.specs.Prelude.{◌≡◌};
ghost use Rattle.refusals.specs.Numbers.{number};
ghost use Rattle.print.specs.Prints.{Prints};
ghost use Rattle.engine.specs.Answer.{given, told};
ghost use Rattle.event_words.specs.Words.{sensor_words, event_words, what_of, command_answer_words, refused_words, answer_words};
ghost use Rattle.event_words.specs.Line.{event_line};

use commands::answer::CommandAnswer;
use engine::answer::Answer;
use engine::event::Event;
use print::Printout;
use refusals::Refusal;
use registers::Chip;

mod byte;
mod command;

fn sensor(value: u8, out: &mut Printout)
    ensures { Prints out.old (sensor_words value) out.new }
{
    out.bytes(b"sensor ");
    out.decimal(u64::from(value));
}

#[tactic(auto, unfolding(crate::specs::Words::event_words))]
fn event_words(event: Event, chip: Chip, out: &mut Printout)
    ensures { Prints out.old (event_words event chip) out.new }
{
    match event {
        Event::Byte(byte) => byte::words(chip.phase, chip.registers, byte, out),
        Event::Start => out.bytes(b"start"),
        Event::Stop => out.bytes(b"stop"),
        Event::ReadAcknowledged => out.bytes(b"read"),
        Event::ReadNotAcknowledged => out.bytes(b"last read"),
        Event::Reset => out.bytes(b"reset"),
        Event::Sensor(value) => sensor(value, out),
        Event::Unlisted => {}
    }
}

// What the event is to a chip that stands as this one does before it.
pub fn what(event: u16, chip: Chip, out: &mut Printout)
    ensures { Prints out.old (what_of event chip) out.new }
{
    event_words(Event::of(event), chip, out);
}

fn command_answer(answer: CommandAnswer) -> &'static [u8]
    ensures { result.now ≡ command_answer_words answer }
{
    match answer {
        CommandAnswer::Taken => b"taken",
        CommandAnswer::Unknown => b"unknown",
        CommandAnswer::OutOfRange => b"out of range",
    }
}

fn refused(refusal: Refusal, out: &mut Printout)
    ensures { Prints out.old (refused_words (number refusal)) out.new }
{
    out.bytes(b"refused ");
    out.decimal(u64::from(refusal.number()));
}

// What the bus gives back for an event that is accepted.
#[tactic(auto, unfolding(crate::specs::Words::answer_words))]
fn accepted(answer: Answer, out: &mut Printout)
    ensures { Prints out.old (answer_words (given answer)) out.new }
{
    match answer {
        Answer::Nothing => out.bytes(b"-"),
        Answer::Acknowledged => out.bytes(b"acknowledged"),
        Answer::NotAcknowledged => out.bytes(b"not acknowledged"),
        Answer::Command(command) => out.bytes(command_answer(command)),
        Answer::Read(byte) => out.decimal(u64::from(byte)),
    }
}

#[tactic(auto, unfolding(crate::specs::Words::answer_words))]
pub fn answer(answer: Result<Answer, Refusal>, out: &mut Printout)
    ensures { Prints out.old (answer_words (told answer)) out.new }
{
    match answer {
        Ok(answer) => accepted(answer, out),
        Err(refusal) => refused(refusal, out),
    }
}

// The whole line. Chip and count are those before the event, and its number follows the count; it may be past the largest u64.
pub fn line(event: u16, chip: Chip, count: u64, given: Result<Answer, Refusal>, out: &mut Printout)
    ensures { Prints out.old (event_line event chip count (told given)) out.new }
{
    out.decimal_plus(count, 1);
    out.byte(b'\t');
    out.field(u64::from(event), b'\t');
    what(event, chip, out);
    out.byte(b'\t');
    answer(given, out);
    out.byte(b'\n');
}
