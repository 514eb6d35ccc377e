// A byte from the master: whether it is this chip's address, and which phase comes after it.
ghost use Rattle.std.specs.Prelude.{◌≡◌};
ghost use Rattle.phases.specs.Changes.{controlled};
ghost use Rattle.phases.specs.Phases.{is_addressed, phase_after_address, phase_after_control, rs_of, awaits_content, is_endless, phase_after_content};

use crate::interface::Interface;
use registers::{Chip, Phase};

// High seven bits 01111 SA1 SA0.
#[tactic(auto, unfolding(crate::specs::Phases::is_addressed))]
pub fn is_addressed(pins: u8, byte: u8) -> bool
    ensures { result ≡ is_addressed pins byte }
{
    u16::from(byte / 2) == 60 + u16::from(pins)
}

// The low bit of a matching address: 0 writes, 1 reads.
#[tactic(auto, unfolding(crate::specs::Phases::phase_after_address))]
pub fn phase_after_address(matched: bool, byte: u8) -> Phase
    ensures { result ≡ phase_after_address matched byte }
{
    if !matched {
        return Phase::Ignoring;
    }
    if byte % 2 == 0 {
        Phase::ControlAwaited
    } else {
        Phase::Reading
    }
}

// Bit 6 of a control byte is RS.
pub fn rs_of(byte: u8) -> bool
    ensures { result ≡ rs_of byte }
{
    byte / 64 % 2 == 1
}

// Bit 7 of a control byte is Co: one byte, or bytes until START or STOP.
pub fn phase_after_control(byte: u8) -> Phase
    ensures { result ≡ phase_after_control byte }
{
    let rs = rs_of(byte);
    if byte / 128 == 1 {
        Phase::OneByte(rs)
    } else {
        Phase::EndlessBytes(rs)
    }
}

pub fn controlled(chip: Chip, byte: u8) -> Chip
    ensures { result ≡ controlled byte chip }
{
    let interface = Interface::of(chip).controlled(byte);
    interface.whole(chip.registers, chip.pixels)
}

// A command or display data comes next.
pub fn awaits_content(phase: Phase) -> bool
    ensures { result ≡ awaits_content phase }
{
    matches!(phase, Phase::OneByte(_) | Phase::EndlessBytes(_))
}

// More than one byte may come.
pub fn is_endless(phase: Phase) -> bool
    ensures { result ≡ is_endless phase }
{
    matches!(phase, Phase::EndlessBytes(_))
}

// One byte is over when it is there; endless bytes go on.
pub fn phase_after_content(phase: Phase) -> Phase
    ensures { result ≡ phase_after_content phase }
{
    match phase {
        Phase::OneByte(_) => Phase::ControlAwaited,
        _ => phase,
    }
}
