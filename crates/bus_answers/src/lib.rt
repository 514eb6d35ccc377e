// What the bus answers, of what its chips answer.
#![tactic(auto)]

ghost use Rattle.std.specs.Prelude.{◌≡◌};
ghost use Rattle.engine.specs.Answer.{given, told};
ghost use Rattle.engine.specs.Event.{event_of};
ghost use Rattle.bus.specs.Step.{or_else, unanswered};

use engine::answer::Answer;
use engine::event::Event;
use refusals::Refusal;

// Where no chip answers: a byte is not acknowledged, a read finds the line high.
fn unanswered(event: Event) -> Answer
    ensures { given result ≡ unanswered event }
{
    match event {
        Event::Byte(_) => Answer::NotAcknowledged,
        Event::ReadAcknowledged | Event::ReadNotAcknowledged => Answer::Read(255),
        Event::Start | Event::Stop | Event::Reset | Event::Sensor(_) | Event::Unlisted => {
            Answer::Nothing
        }
    }
}

// A chip's answer, or what else is heard where it has none.
fn or_else(
    answer: Result<Answer, Refusal>,
    other: Result<Answer, Refusal>,
) -> Result<Answer, Refusal>
    ensures { told result ≡ or_else (told answer) (told other) }
{
    match answer {
        Ok(Answer::Nothing | Answer::NotAcknowledged | Answer::Read(255)) => other,
        _ => answer,
    }
}

// The four chips' answers as one.
pub fn of_four(
    event: u16,
    answer0: Result<Answer, Refusal>,
    answer1: Result<Answer, Refusal>,
    answer2: Result<Answer, Refusal>,
    answer3: Result<Answer, Refusal>,
) -> Result<Answer, Refusal>
    ensures { told result ≡ or_else (told answer0) (or_else (told answer1) (or_else (told answer2) (or_else (told answer3) (unanswered (event_of event))))) }
{
    let other = Ok(unanswered(Event::of(event)));
    or_else(
        answer0,
        or_else(answer1, or_else(answer2, or_else(answer3, other))),
    )
}
