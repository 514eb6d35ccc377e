// What the bus gives back for an event.
ghost use Rattle.std.specs.Prelude.{◌≡◌};
ghost use Rattle.engine.specs.Answer.{given, told};
ghost use Rattle.engine.specs.Event.{number_of, counts_as};

use commands::answer::CommandAnswer;
use refusals::Refusal;

// Nothing for START, STOP, reset pulse and sensor reading; an acknowledge or none for a byte; the byte for a read. A command byte is acknowledged
// too, and its answer says besides whether it was taken.
#[derive(Clone, Copy, Debug, PartialEq, Eq, Hash)]
pub enum Answer {
    Nothing,
    Acknowledged,
    NotAcknowledged,
    Command(CommandAnswer),
    Read(u8),
}

impl Answer {
    // The host's number for it.
    pub fn number(self) -> u64
        ensures { result ≡ number_of (given self) }
    {
        match self {
            Answer::Nothing => 256,
            Answer::Acknowledged => 257,
            Answer::NotAcknowledged => 258,
            Answer::Command(answer) => answer.number(),
            Answer::Read(b) => 512 + u64::from(b),
        }
    }

    // 1 where it is this answer to a command, 0 where it is another answer.
    pub fn counts_as(self, one: CommandAnswer) -> usize
        ensures { result ≡ counts_as one (given self) }
    {
        match self {
            Answer::Command(answer) => answer.counts(one),
            _ => 0,
        }
    }
}

// The number of what an event came to: a refusal's own, else the answer's.
pub fn number(answer: Result<Answer, Refusal>) -> u64
    ensures { result ≡ number_of (told answer) }
{
    match answer {
        Ok(given) => given.number(),
        Err(refusal) => u64::from(refusal.number()),
    }
}
