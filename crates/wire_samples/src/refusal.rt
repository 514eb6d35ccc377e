// Which wires and which samples are refused.
ghost use Rattle.std.specs.Prelude.{◌≡◌};
ghost use Rattle.refusals.specs.Numbers.{refused_by};
ghost use Rattle.wire_samples.specs.Feed.{is_allowed, are_samples, refusal_of};

use crate::Wires;
use refusals::Refusal;

#[tactic(auto, unfolding(crate::specs::Feed::is_allowed))]
pub fn is_allowed(wires: Wires) -> bool
    ensures { result ≡ is_allowed wires }
{
    (wires.last <= 3) & (wires.bits <= 8)
}

// All are looked at, with no way out on the way: so many of them are tested at a time.
pub fn are_samples(samples: &[u8]) -> bool
    ensures { result ≡ are_samples samples.now }
{
    samples
        .iter()
        .fold(true, |good, sample| good & (*sample <= 3))
}

#[tactic(auto, unfolding(crate::specs::Feed::refusal_of))]
pub fn of_samples(wires: Wires, samples: &[u8]) -> Result<(), Refusal>
    ensures { refused_by result ≡ refusal_of wires samples.now }
{
    if !is_allowed(wires) {
        return Err(Refusal::Record);
    }
    if !are_samples(samples) {
        return Err(Refusal::NoSample);
    }
    Ok(())
}
