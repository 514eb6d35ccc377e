// What a pixel gets in the four frames, and the host's number for it.
ghost use Rattle.std.specs.Prelude.{◌≡◌};
ghost use Rattle.refusals.specs.Numbers.{numbered};
ghost use Rattle.pulses.specs.Answer.{pulses_number};

use refusals::Refusal;

// Dark: the display is off; undriven: the row is outside the partial display. Lit: the pulses of frames 0, 1, 2 and 3.
#[derive(Clone, Copy, Debug, PartialEq, Eq, Hash)]
pub enum Pulses {
    Dark,
    Undriven,
    Lit(u8, u8, u8, u8),
}

// A refusal's own number, else the host's: the four pulses are the bytes of a word from the lowest up, below a 1.
pub fn pulses_number(pulses: Result<Pulses, Refusal>) -> u64
    ensures { result ≡ pulses_number (numbered pulses) }
{
    match pulses {
        Err(refusal) => u64::from(refusal.number()),
        Ok(Pulses::Dark) => 256,
        Ok(Pulses::Undriven) => 257,
        Ok(Pulses::Lit(first, second, third, fourth)) => {
            4294967296
                + u64::from(first)
                + 256 * u64::from(second)
                + 65536 * u64::from(third)
                + 16777216 * u64::from(fourth)
        }
    }
}
