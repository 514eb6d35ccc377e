// Why a call is refused: document 01's table. A host in C is told the numbers.
#![tactic(auto)]

ghost use Rattle.std.specs.Prelude.{◌≡◌, ◌<◌};
ghost use Rattle.refusals.specs.declared.Refusal.{Refusal};
ghost use Rattle.refusals.specs.Numbers.{number, number_of};

use std::error::Error;
use std::fmt;

// In the order of their numbers, from 1.
#[derive(Clone, Copy, Debug, PartialEq, Eq, Hash)]
pub enum Refusal {
    // a lent memory of another length
    MemoryLength,
    // a record that is not allowed, or words that stand for none
    Record,
    // an event number that is not listed
    UnlistedEvent,
    // the count is full
    FullCount,
    // a row or column that the glass does not have
    OutsideGlass,
    // a line of a drawing list that is malformed
    MalformedLine,
    // a number of such a line that is out of range
    NumberOutOfRange,
    // a register whose row of the instruction table can't be read
    UnreadableRow,
    // a list of too many lines
    TooManyLines,
    // an output that is too short
    ShortOutput,
    // a row buffer of another length
    RowLength,
    // chips that can't share a bus
    CannotShare,
    // a sensor reading for pins above 3
    SensorPins,
    // a byte that is no sample
    NoSample,
    // no room for an event
    NoRoomForEvent,
    // a count of pixels would leave its range
    PixelCounts,
}

impl Refusal {
    // No two have the same.
    pub fn number(self) -> u8
        ensures value { result ≡ number self }
        ensures not_0 { 0 < result }
        ensures its_own { (other : Refusal) → number other ≡ result → other ≡ self }
    {
        match self {
            Refusal::MemoryLength => 1,
            Refusal::Record => 2,
            Refusal::UnlistedEvent => 3,
            Refusal::FullCount => 4,
            Refusal::OutsideGlass => 5,
            Refusal::MalformedLine => 6,
            Refusal::NumberOutOfRange => 7,
            Refusal::UnreadableRow => 8,
            Refusal::TooManyLines => 9,
            Refusal::ShortOutput => 10,
            Refusal::RowLength => 11,
            Refusal::CannotShare => 12,
            Refusal::SensorPins => 13,
            Refusal::NoSample => 14,
            Refusal::NoRoomForEvent => 15,
            Refusal::PixelCounts => 16,
        }
    }
}

impl fmt::Display for Refusal {
    fn fmt<W: fmt::Write>(&self, f: &mut fmt::Formatter<W>) -> fmt::Result {
        write!(f, "refused by {}", self.number())
    }
}

impl Error for Refusal {}

// The host's number: 0 where nothing is refused.
pub fn number_of(refusal: Option<Refusal>) -> u8
    ensures { result ≡ number_of refusal }
{
    refusal.map_or(0, Refusal::number)
}
