// Which chips can share a bus.
ghost use Rattle.std.specs.Prelude.{◌≡◌};
ghost use Rattle.bus.specs.Bus.{is_idle_phase, is_awaiting_phase, is_past_phase, one_past, phases_agree, pins_differ};
ghost use Rattle.bus.specs.Refusals.{can_share};
ghost use Rattle.bus_refusals.specs.Four.{records_of, is_in_message};

use registers::{Chip, Phase};

fn is_idle(phase: Phase) -> bool
    ensures { result ≡ is_idle_phase phase }
{
    matches!(phase, Phase::Idle)
}

fn is_awaiting(phase: Phase) -> bool
    ensures { result ≡ is_awaiting_phase phase }
{
    matches!(phase, Phase::AddressAwaited)
}

// Ignoring the rest of a message, or past its address in one.
fn is_in_message(phase: Phase) -> bool
    ensures { result ≡ is_in_message phase }
{
    !matches!(phase, Phase::Idle | Phase::AddressAwaited)
}

// Written to or read from.
fn is_past(phase: Phase) -> bool
    ensures { result ≡ is_past_phase phase }
{
    !matches!(phase, Phase::Idle | Phase::AddressAwaited | Phase::Ignoring)
}

// All ignoring but at most one past its address.
fn one_past(chips: &[Chip]) -> bool
    ensures { result ≡ one_past (records_of chips.now) }
{
    let all_in_message = chips.iter().all(|chip| is_in_message(chip.phase));
    let past = chips.iter().filter(|chip| is_past(chip.phase)).count();
    all_in_message & (past <= 1)
}

fn phases_agree(chips: &[Chip]) -> bool
    ensures { result ≡ phases_agree (records_of chips.now) }
{
    let all_idle = chips.iter().all(|chip| is_idle(chip.phase));
    let all_awaiting = chips.iter().all(|chip| is_awaiting(chip.phase));
    all_idle | (all_awaiting | one_past(chips))
}

fn pins_differ(chips: &[Chip]) -> bool
    ensures { result ≡ pins_differ (records_of chips.now) }
{
    match chips {
        [] => true,
        [first, others @ ..] => {
            others.iter().all(|other| other.pins != first.pins) & pins_differ(others)
        }
    }
}

pub fn can_share(chips: &[Chip]) -> bool
    ensures { result ≡ can_share (records_of chips.now) }
{
    pins_differ(chips) & phases_agree(chips)
}
