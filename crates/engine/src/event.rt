// Bus events by their 16-bit numbers.
ghost use Rattle.std.specs.Prelude.{◌≡◌};
ghost use Rattle.engine.specs.Event.{event_of};

// The numbers below are the bytes from the master.
pub const START: u16 = 256;

pub const STOP: u16 = 257;

pub const READ_ACKNOWLEDGED: u16 = 258;

pub const READ_NOT_ACKNOWLEDGED: u16 = 259;

pub const RESET: u16 = 260;

#[derive(Clone, Copy, Debug, PartialEq, Eq, Hash)]
pub enum Event {
    Byte(u8),
    Start,
    Stop,
    ReadAcknowledged,
    ReadNotAcknowledged,
    Reset,
    Sensor(u8),
    Unlisted,
}

impl Event {
    pub fn of(number: u16) -> Self
        ensures { result ≡ event_of number }
    {
        match number {
            0..=255 => Event::Byte(number as u8),
            START => Event::Start,
            STOP => Event::Stop,
            READ_ACKNOWLEDGED => Event::ReadAcknowledged,
            READ_NOT_ACKNOWLEDGED => Event::ReadNotAcknowledged,
            RESET => Event::Reset,
            512..=767 => Event::Sensor((number - 512) as u8),
            _ => Event::Unlisted,
        }
    }
}
