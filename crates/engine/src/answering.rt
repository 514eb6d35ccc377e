// The answer to an event that is not refused. It goes by the chip before the event; of a command the run over it has counted how it was answered, so
// that its row is not looked for again.
ghost use Rattle.std.specs.Prelude.{cond, ◌≡◌, []};
ghost use Rattle.registers.specs.State.{state};
ghost use Rattle.phases.specs.Changes.{read_byte};
ghost use Rattle.engine.specs.Answer.{Acknowledged, Command, Read, given};
ghost use Rattle.engine.specs.Event.{event_of};
ghost use Rattle.engine.specs.Loop.{answer_of, commanded_by, command_answered};
ghost use Rattle.engine.specs.Step.{acknowledge, on_byte};

use crate::answer::Answer;
use crate::event::Event;
use commands::answer::CommandAnswer;
use phases::interface::Interface;
use registers::{Chip, Phase};

#[tactic(auto, unfolding(crate::specs::Step::acknowledge))]
fn acknowledge(taken: bool) -> Answer
    ensures { given result ≡ acknowledge taken }
{
    if taken {
        Answer::Acknowledged
    } else {
        Answer::NotAcknowledged
    }
}

fn command_answered(unknown: usize, out_of_range: usize) -> CommandAnswer
    ensures { result ≡ command_answered unknown out_of_range }
{
    match (unknown, out_of_range) {
        (0, 0) => CommandAnswer::Taken,
        (0, _) => CommandAnswer::OutOfRange,
        _ => CommandAnswer::Unknown,
    }
}

// A command where RS is 0, display data where it is 1.
fn to_content(rs: bool, commanded: CommandAnswer) -> Answer
    ensures { given result ≡ cond rs Acknowledged (Command commanded) }
{
    if rs {
        Answer::Acknowledged
    } else {
        Answer::Command(commanded)
    }
}

#[tactic(auto, unfolding(crate::specs::Step::acknowledge))]
fn to_byte(byte: u8, chip: Chip, commanded: CommandAnswer) -> Answer
    ensures { given result ≡ commanded_by commanded (on_byte chip.phase byte (state chip [] [] 0)).answer }
{
    match chip.phase {
        Phase::AddressAwaited => acknowledge(phases::byte::is_addressed(chip.pins, byte)),
        Phase::ControlAwaited => Answer::Acknowledged,
        Phase::OneByte(rs) | Phase::EndlessBytes(rs) => to_content(rs, commanded),
        Phase::Idle | Phase::Ignoring | Phase::Reading | Phase::ReadEnded => {
            Answer::NotAcknowledged
        }
    }
}

fn to_read(chip: Chip) -> Answer
    ensures { given result ≡ Read (read_byte chip) }
{
    Answer::Read(Interface::of(chip).read_byte())
}

// The chip is the one before the event, and the counts are those of a run over the event alone.
#[tactic(auto, unfolding(crate::specs::Step::applied))]
pub fn to_event(event: u16, chip: Chip, unknown: usize, out_of_range: usize) -> Answer
    ensures { given result ≡ commanded_by (command_answered unknown out_of_range) (answer_of (event_of event) chip) }
{
    match Event::of(event) {
        Event::Byte(byte) => to_byte(byte, chip, command_answered(unknown, out_of_range)),
        Event::ReadAcknowledged | Event::ReadNotAcknowledged => to_read(chip),
        Event::Start | Event::Stop | Event::Reset | Event::Sensor(_) | Event::Unlisted => {
            Answer::Nothing
        }
    }
}
