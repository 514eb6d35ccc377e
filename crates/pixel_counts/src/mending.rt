// The counts mended where one byte takes the place of another: the pixels of the old byte leave, those of the new one join.
ghost use Rattle.std.specs.Prelude.{cond, ◌≡◌, Ok, Err};
ghost use Rattle.pixel_counts.specs.Mending.{fits, moved, all_fit, all_moved, mendable, mended};

use crate::shown::shown;
use registers::PixelCounts;

// A count that `left` pixels leave and `joined` pixels join would be neither below 0 nor above that of all pixels.
fn fits(count: u16, left: u16, joined: u16) -> bool
    ensures { result ≡ fits count left joined }
{
    let whole = count as u32 + joined as u32;
    (left as u32 <= whole) & (whole <= 6767 + left as u32)
}

// The count after that, or as it was where there is no such count.
fn moved(count: u16, left: u16, joined: u16) -> u16
    ensures { result ≡ moved count left joined }
{
    if fits(count, left, joined) {
        return (count as u32 + joined as u32 - left as u32) as u16;
    }
    count
}

fn all_fit(pixels: PixelCounts, left: PixelCounts, joined: PixelCounts) -> bool
    ensures { result ≡ all_fit pixels left joined }
{
    fits(pixels.zeros, left.zeros, joined.zeros)
        & fits(pixels.ones, left.ones, joined.ones)
        & fits(pixels.twos, left.twos, joined.twos)
        & fits(pixels.threes, left.threes, joined.threes)
}

fn all_moved(pixels: PixelCounts, left: PixelCounts, joined: PixelCounts) -> PixelCounts
    ensures { result ≡ all_moved pixels left joined }
{
    PixelCounts {
        zeros: moved(pixels.zeros, left.zeros, joined.zeros),
        ones: moved(pixels.ones, left.ones, joined.ones),
        twos: moved(pixels.twos, left.twos, joined.twos),
        threes: moved(pixels.threes, left.threes, joined.threes),
    }
}

// Byte `new` takes the place of byte `old`: whether all counts stay in their range.
pub fn mendable(pixels: PixelCounts, place: usize, old: u8, new: u8) -> bool
    ensures { result ≡ mendable pixels place old new }
{
    all_fit(pixels, shown(place, old), shown(place, new))
}

// The same, and the counts then: the bytes are looked at once for both. Where some count does not fit, it is in the error as it was.
#[tactic(auto, unfolding(crate::specs::Mending::mendable, crate::specs::Mending::mended))]
pub fn mend(pixels: PixelCounts, place: usize, old: u8, new: u8) -> Result<PixelCounts, PixelCounts>
    ensures { result ≡ cond (mendable pixels place old new) (Ok (mended pixels place old new)) (Err (mended pixels place old new)) }
{
    let left = shown(place, old);
    let joined = shown(place, new);
    let after = all_moved(pixels, left, joined);
    if all_fit(pixels, left, joined) {
        Ok(after)
    } else {
        Err(after)
    }
}
