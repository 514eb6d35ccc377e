// The chip's bus interface: what of its record is neither a register nor a count of pixels. A run holds it apart from them, so that an event that
// changes the phase alone does not copy the rest.
ghost use Rattle.std.specs.Prelude.{◌≡◌};
ghost use Rattle.registers.specs.declared.PixelCounts.{PixelCounts};
ghost use Rattle.registers.specs.declared.Registers.{Registers};
ghost use Rattle.registers.specs.Record.{reset_registers};
ghost use Rattle.phases.specs.Changes.{controlled, read_byte, sensed, pulsed};
ghost use Rattle.phases.specs.Interface.{whole, turned};

use crate::byte::{phase_after_control, rs_of};
use crate::other::is_reading;
use registers::{Chip, Phase, PixelCounts, Registers};

// The pins SA, the status byte TR, the last RS, and where the bus stands.
#[derive(Clone, Copy, Debug, PartialEq, Eq, Hash)]
pub struct Interface {
    pub pins: u8,
    pub status: u8,
    pub last_rs: bool,
    pub phase: Phase,
}

impl Interface {
    pub fn of(chip: Chip) -> Self
        ensures { whole chip.registers result chip.pixels ≡ chip }
    {
        Self {
            pins: chip.pins,
            status: chip.status,
            last_rs: chip.last_rs,
            phase: chip.phase,
        }
    }

    // The record, put together.
    pub fn whole(self, registers: Registers, pixels: PixelCounts) -> Chip
        ensures { result ≡ whole registers self pixels }
    {
        Chip {
            registers,
            pins: self.pins,
            status: self.status,
            last_rs: self.last_rs,
            phase: self.phase,
            pixels,
        }
    }

    pub fn in_phase(self, phase: Phase) -> Self
        ensures { result ≡ turned self phase }
    {
        Self { phase, ..self }
    }

    #[tactic(auto, unfolding(crate::specs::Changes::controlled))]
    pub fn controlled(self, byte: u8) -> Self
        ensures { (r : Registers) (n : PixelCounts) → whole r result n ≡ controlled byte (whole r self n) }
    {
        Self {
            last_rs: rs_of(byte),
            phase: phase_after_control(byte),
            ..self
        }
    }

    // What the bus carries when the master reads: the status byte while reading after RS 0, else 255.
    #[tactic(auto, unfolding(crate::specs::Changes::read_byte))]
    pub fn read_byte(self) -> u8
        ensures { (r : Registers) (n : PixelCounts) → result ≡ read_byte (whole r self n) }
    {
        if is_reading(self.phase) & !self.last_rs {
            self.status
        } else {
            255
        }
    }

    // A reset pulse: reset values but for the pins. The registers are reset beside it.
    #[tactic(auto, unfolding(crate::specs::Changes::pulsed))]
    pub fn pulsed(self) -> Self
        ensures { (r : Registers) (n : PixelCounts) → whole reset_registers result n ≡ pulsed (whole r self n) }
    {
        Self {
            status: 0,
            last_rs: false,
            phase: Phase::Idle,
            ..self
        }
    }

    // A reading is taken where SM = 1 and PD = 0.
    #[tactic(auto, unfolding(crate::specs::Changes::sensed))]
    pub fn sensed(mut self, registers: Registers, value: u8) -> Self
        ensures { (n : PixelCounts) → whole registers result n ≡ sensed value (whole registers self n) }
    {
        if (registers.sm == 1) & (registers.pd == 0) {
            self.status = value;
        }
        self
    }
}
