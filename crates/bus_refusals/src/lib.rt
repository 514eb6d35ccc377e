// The refusals of a bus event, in their order.
#![tactic(auto)]

ghost use Rattle.std.specs.Prelude.{◌&&◌, [], ◌≡◌, ◌<◌, OnOk, eqb};
ghost use Rattle.refusals.specs.Numbers.{refused_by};
ghost use Rattle.registers.specs.Refusals.{◌then◌};
ghost use Rattle.registers.specs.State.{places};
ghost use Rattle.bus.specs.Bus.{bus, every};
ghost use Rattle.bus_refusals.specs.Four.{four, records_of};
ghost use Rattle.bus.specs.Refusals.{is_allowed, devices_refusal_for, is_sensor_reading, sent_refusal, counts_fit, pixels_refusal_for, bus_refusal};

use engine::fitting::counts_fit;
use refusals::Refusal;
use registers::Chip;

mod sharing;

// Both lent memories of a chip have their length.
pub fn is_long(memory_len: usize, writers_len: usize) -> bool
    ensures { result ≡ eqb memory_len places && eqb writers_len places }
{
    memory_len == 1717 && writers_len == 1717
}

// Every record is allowed.
fn are_allowed(chips: &[Chip]) -> bool
    ensures { result ≡ every is_allowed (records_of chips.now) }
{
    chips.iter().all(|chip| chip.allowed())
}

// A lent memory of another length, a record that is not allowed, chips that can't share a bus.
fn of_devices(chips: &[Chip], long: bool) -> Result<(), Refusal>
    ensures { refused_by result ≡ devices_refusal_for long (records_of chips.now) }
{
    if !long {
        return Err(Refusal::MemoryLength);
    }
    if !are_allowed(chips) {
        return Err(Refusal::Record);
    }
    if !sharing::can_share(chips) {
        return Err(Refusal::CannotShare);
    }
    Ok(())
}

pub fn is_sensor_reading(event: u16) -> bool
    ensures { result ≡ is_sensor_reading event }
{
    (512..=767).contains(&event)
}

// An event number that is not listed, a sensor reading for pins above 3, a full count.
#[tactic(auto, unfolding(bus::specs::Refusals::sent_refusal))]
fn of_event(event: u16, pins: u64, count: u64) -> Result<(), Refusal>
    ensures value { refused_by result ≡ sent_refusal event pins count }
    ensures room { OnOk result (count < 18446744073709551615) }
{
    if !registers::refusal::is_listed_event(event) {
        return Err(Refusal::UnlistedEvent);
    }
    if is_sensor_reading(event) && 3 < pins {
        return Err(Refusal::SensorPins);
    }
    if count == u64::MAX {
        return Err(Refusal::FullCount);
    }
    Ok(())
}

// Of some chip a count of pixels would leave its range.
fn of_fit(fit: bool) -> Result<(), Refusal>
    ensures { refused_by result ≡ pixels_refusal_for fit }
{
    if fit {
        Ok(())
    } else {
        Err(Refusal::PixelCounts)
    }
}

// All seven in their order. `long` says that all memories have their length, `fit` that all counts of
// pixels would stay in their range.
fn in_order(
    event: u16,
    pins: u64,
    chips: &[Chip],
    count: u64,
    long: bool,
    fit: bool,
) -> Result<(), Refusal>
    ensures value { refused_by result ≡ devices_refusal_for long (records_of chips.now) then sent_refusal event pins count then pixels_refusal_for fit }
    ensures room { OnOk result (count < 18446744073709551615) }
{
    of_devices(chips, long)?;
    of_event(event, pins, count)?;
    of_fit(fit)
}

// Whether the event leaves every count of pixels of all four chips in its range.
fn all_fit(
    event: u16,
    chips: [Chip; 4],
    memory0: &[u8],
    memory1: &[u8],
    memory2: &[u8],
    memory3: &[u8],
) -> bool
    ensures { result ≡ every (counts_fit event)
        (four chips memory0.now [] memory1.now [] memory2.now [] memory3.now []) }
{
    counts_fit(event, chips[0], memory0)
        & (counts_fit(event, chips[1], memory1)
            & (counts_fit(event, chips[2], memory2) & counts_fit(event, chips[3], memory3)))
}

// The refusal of an event, from the records and the memories; where there is none, the event can be counted.
// kept (C interface): a host lends each buffer by itself
pub fn of_step(
    event: u16,
    pins: u64,
    chips: [Chip; 4],
    count: u64,
    memory0: &[u8],
    writers0: &[u64],
    memory1: &[u8],
    writers1: &[u64],
    memory2: &[u8],
    writers2: &[u64],
    memory3: &[u8],
    writers3: &[u64],
) -> Result<(), Refusal>
    ensures value { refused_by result ≡ bus_refusal event pins (bus (four chips memory0.now writers0.now memory1.now writers1.now
        memory2.now writers2.now memory3.now writers3.now) count) }
    ensures room { OnOk result (count < 18446744073709551615) }
{
    let long = is_long(memory0.len(), writers0.len())
        & (is_long(memory1.len(), writers1.len())
            & (is_long(memory2.len(), writers2.len()) & is_long(memory3.len(), writers3.len())));
    let fit = all_fit(event, chips, memory0, memory1, memory2, memory3);
    // The tests that go over records lend an array of their own: what is lent stands in memory, and the chips that are played need not.
    let tested = [chips[0], chips[1], chips[2], chips[3]];
    in_order(event, pins, &tested, count, long, fit)
}
