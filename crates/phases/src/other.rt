// The events that touch no memory: reads, reset pulse, sensor reading.
ghost use Rattle.std.specs.Prelude.{◌≡◌};
ghost use Rattle.phases.specs.Changes.{read_byte, sensed, pulsed};
ghost use Rattle.phases.specs.Phases.{is_reading, phase_after_last_read};

use crate::interface::Interface;
use registers::{Chip, Phase, Registers};

pub fn is_reading(phase: Phase) -> bool
    ensures { result ≡ is_reading phase }
{
    matches!(phase, Phase::Reading)
}

// What the bus carries when the master reads: the status byte while reading after RS 0, else 255.
pub fn read_byte(chip: Chip) -> u8
    ensures { result ≡ read_byte chip }
{
    Interface::of(chip).read_byte()
}

// A byte that the master does not acknowledge ends the read.
#[tactic(auto, unfolding(crate::specs::Phases::phase_after_last_read))]
pub fn phase_after_last_read(phase: Phase) -> Phase
    ensures { result ≡ phase_after_last_read phase }
{
    if is_reading(phase) {
        Phase::ReadEnded
    } else {
        phase
    }
}

// Reset values but for the pins and the pixels by value; the lent memories and the count are not touched.
pub fn pulsed(chip: Chip) -> Chip
    ensures { result ≡ pulsed chip }
{
    let interface = Interface::of(chip).pulsed();
    interface.whole(Registers::reset(), chip.pixels)
}

// A reading is taken where SM = 1 and PD = 0.
pub fn sensed(chip: Chip, value: u8) -> Chip
    ensures { result ≡ sensed value chip }
{
    let interface = Interface::of(chip).sensed(chip.registers, value);
    interface.whole(chip.registers, chip.pixels)
}
