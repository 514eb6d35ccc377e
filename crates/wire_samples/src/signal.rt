// What the two lines say between a sample and the next.
ghost use Rattle.std.specs.Prelude.{◌≡◌};
ghost use Rattle.wire_samples.specs.Signal.{scl_of, sda_of, rises, falls, changes, signal_of};

// A line is true where it is high.
fn scl(sample: u8) -> bool
    ensures { result ≡ scl_of sample }
{
    sample / 2 % 2 == 1
}

fn sda(sample: u8) -> bool
    ensures { result ≡ sda_of sample }
{
    sample % 2 == 1
}

fn rises(before: bool, now: bool) -> bool
    ensures { result ≡ rises before now }
{
    !before & now
}

fn falls(before: bool, now: bool) -> bool
    ensures { result ≡ falls before now }
{
    before & !now
}

fn changes(before: bool, now: bool) -> bool
    ensures { result ≡ changes before now }
{
    before != now
}

#[derive(Clone, Copy, Debug, PartialEq, Eq)]
pub enum Signal {
    // nothing that counts
    Quiet,
    Start,
    Stop,
    // what the data line holds where the clock rises
    Bit(bool),
    // both lines changed, and nobody knows which did first
    Unclear,
}

#[tactic(auto, unfolding(crate::specs::Signal::signal_of))]
pub fn between(before: u8, sample: u8) -> Signal
    ensures { result ≡ signal_of before sample }
{
    let clock_before = scl(before);
    let clock = scl(sample);
    let data_before = sda(before);
    let data = sda(sample);
    if changes(clock_before, clock) & changes(data_before, data) {
        return Signal::Unclear;
    }
    if rises(clock_before, clock) {
        return Signal::Bit(data);
    }
    if clock_before & clock & falls(data_before, data) {
        return Signal::Start;
    }
    if clock_before & clock & rises(data_before, data) {
        return Signal::Stop;
    }
    Signal::Quiet
}
