// What a row and column of the glass give back, and the host's numbers for it.
ghost use Rattle.std.specs.Prelude.{◌≡◌};
ghost use Rattle.refusals.specs.Numbers.{numbered};
ghost use Rattle.glass.specs.Answer.{shown_number, cell_number};

use refusals::Refusal;

// What is shown. Dark: the display is off; undriven: the row is outside the partial display; a level is 0 to 62, or 64.
#[derive(Clone, Copy, Debug, PartialEq, Eq, Hash)]
pub enum Shown {
    Dark,
    Undriven,
    Level(u8),
}

// The host's number for what is shown: a refusal's own is below 256.
pub fn shown_number(shown: Result<Shown, Refusal>) -> u64
    ensures { result ≡ shown_number (numbered shown) }
{
    match shown {
        Err(refusal) => u64::from(refusal.number()),
        Ok(Shown::Dark) => 256,
        Ok(Shown::Undriven) => 257,
        Ok(Shown::Level(level)) => 512 + u64::from(level),
    }
}

// The host's number for where it stands: 512 and the place, or a refusal's own.
pub fn place_number(place: Result<u16, Refusal>) -> u64
    ensures { result ≡ cell_number (numbered place) }
{
    match place {
        Err(refusal) => u64::from(refusal.number()),
        Ok(place) => 512 + u64::from(place),
    }
}
