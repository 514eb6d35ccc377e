// How many pixels of the glass have each value: counted from a display memory, and mended where one byte takes the place of another.
#![tactic(auto)]

ghost use Rattle.std.specs.Prelude.{◌≡◌};
ghost use Rattle.refusals.specs.Numbers.{numbered};
ghost use Rattle.pixel_counts.specs.Counts.{counts_of, counting_start};

use refusals::Refusal;
use registers::PixelCounts;

pub mod mending;
mod shown;

// The counts of a memory; where it is too short, the bytes that it lacks are taken for 0.
pub fn of_memory(memory: &[u8]) -> PixelCounts
    ensures { result ≡ counts_of memory.now }
{
    let mut zeros = 0u16;
    let mut ones = 0u16;
    let mut twos = 0u16;
    let mut threes = 0u16;
    for at in 0..1717 {
        let here = shown::shown(at, registers::entry::entry(memory, at));
        zeros += here.zeros;
        ones += here.ones;
        twos += here.twos;
        threes += here.threes;
    }
    PixelCounts {
        zeros,
        ones,
        twos,
        threes,
    }
}

// A counting start: the counts of a display memory, or the refusal of one that is not 1,717 long.
#[tactic(auto, using(glass::proofs::CodeWays::refused_told, glass::proofs::CodeWays::accepted_told), unfolding(crate::specs::Counts::counting_start))]
pub fn start(memory: &[u8]) -> Result<PixelCounts, Refusal>
    ensures { numbered result ≡ counting_start memory.now }
{
    registers::refusal::length(memory.len())?;
    Ok(of_memory(memory))
}
