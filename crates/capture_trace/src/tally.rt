// How many bytes from the master were acknowledged, and how many not.
ghost use Rattle.std.specs.Prelude.{◌≡◌};
ghost use Rattle.engine.specs.Answer.{told};
ghost use Rattle.capture_trace.specs.Follow.{none_tallied, one_more, tallied};

use engine::answer::Answer;
use refusals::Refusal;

#[derive(Clone, Copy, Debug, PartialEq, Eq, Hash)]
pub struct Tally {
    pub acknowledged: u64,
    pub not_acknowledged: u64,
}

// The largest count stays: no capture has as many events.
fn one_more(n: u64) -> u64
    ensures { result ≡ one_more n }
{
    n.saturating_add(1)
}

impl Tally {
    pub fn none() -> Self
        ensures { result ≡ none_tallied }
    {
        Self {
            acknowledged: 0,
            not_acknowledged: 0,
        }
    }

    // With the answer to one event more: nothing of a refused one. A command is acknowledged whether it is taken or not.
    #[tactic(auto, unfolding(crate::specs::Follow::tallied))]
    pub fn with(self, answer: Result<Answer, Refusal>) -> Self
        ensures { result ≡ tallied (told answer) self }
    {
        match answer {
            Ok(Answer::Acknowledged | Answer::Command(_)) => Self {
                acknowledged: one_more(self.acknowledged),
                ..self
            },
            Ok(Answer::NotAcknowledged) => Self {
                not_acknowledged: one_more(self.not_acknowledged),
                ..self
            },
            Ok(Answer::Nothing | Answer::Read(_)) | Err(_) => self,
        }
    }
}
