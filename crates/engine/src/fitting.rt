// Whether an event leaves every count of pixels in its range, which a bus asks of each of its chips before any takes the event. A chip alone finds it
// where it takes display bytes.
ghost use Rattle.std.specs.Prelude.{◌≡◌, eqb};
ghost use Rattle.engine.specs.Step.{pixel_refusal};

use registers::Chip;

// A display byte may not leave it; no other event moves a count.
#[tactic(auto, using(crate::proofs::CodeWays::fit_number), unfolding(crate::specs::Step::pixel_refusal))]
pub fn counts_fit(event: u16, chip: Chip, memory: &[u8]) -> bool
    ensures { result ≡ eqb (pixel_refusal event chip memory.now) 0 }
{
    match u8::try_from(event) {
        Ok(byte) if chip.phase.rs() => {
            display::pixels_fit(chip.registers, chip.pixels, memory, byte)
        }
        _ => true,
    }
}
