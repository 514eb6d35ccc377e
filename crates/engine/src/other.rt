// An event that brings no content: it touches no memory, and of the registers only a reset pulse changes any.
ghost use Rattle.std.specs.Prelude.{false, ◌&&◌, List, ◌≡◌, ℕ};
ghost use Rattle.registers.specs.declared.PixelCounts.{PixelCounts};
ghost use Rattle.registers.specs.declared.Registers.{Registers};
ghost use Rattle.registers.specs.State.{state};
ghost use Rattle.phases.specs.Interface.{whole, turned};
ghost use Rattle.phases.specs.Phases.{is_addressed, phase_after_address, awaits_content};
ghost use Rattle.engine.specs.Event.{event_of, is_byte};
ghost use Rattle.engine.specs.Loop.{registers_upon};
ghost use Rattle.engine.specs.Step.{on_byte, applied};

use crate::event::{Event, RESET};
use phases::interface::Interface;
use registers::{Phase, Registers};

// An address byte.
fn on_address(byte: u8, interface: Interface) -> Interface
    ensures { result ≡ turned interface (phase_after_address (is_addressed interface.pins byte) byte) }
{
    let matched = phases::byte::is_addressed(interface.pins, byte);
    interface.in_phase(phases::byte::phase_after_address(matched, byte))
}

// A byte where no content is awaited.
fn on_byte(byte: u8, interface: Interface) -> Interface
    requires { awaits_content interface.phase ≡ false }
    ensures { (r : Registers) (n : PixelCounts) (m w : List ℕ) (k : ℕ)
        → state (whole r result n) m w k ≡ (on_byte interface.phase byte (state (whole r interface n) m w k)).state }
{
    match interface.phase {
        Phase::AddressAwaited => on_address(byte, interface),
        Phase::ControlAwaited => interface.controlled(byte),
        Phase::Reading | Phase::ReadEnded => interface.in_phase(Phase::Ignoring),
        Phase::Idle | Phase::Ignoring => interface,
        // these two await content
        Phase::OneByte(_) | Phase::EndlessBytes(_) => interface,
    }
}

// The interface after the event. The registers are those before it.
#[tactic(auto, unfolding(crate::specs::Step::applied))]
pub fn interface_after(event: Event, interface: Interface, registers: Registers) -> Interface
    requires { is_byte event && awaits_content interface.phase ≡ false }
    ensures { (n : PixelCounts) (m w : List ℕ) (k : ℕ)
        → state (whole (registers_upon event registers) result n) m w k ≡ (applied event (state (whole registers interface n) m w k)).state }
{
    match event {
        Event::Byte(byte) => on_byte(byte, interface),
        Event::Start => interface.in_phase(Phase::AddressAwaited),
        Event::Stop => interface.in_phase(Phase::Idle),
        Event::ReadNotAcknowledged => {
            interface.in_phase(phases::other::phase_after_last_read(interface.phase))
        }
        Event::Reset => interface.pulsed(),
        Event::Sensor(value) => interface.sensed(registers, value),
        Event::ReadAcknowledged | Event::Unlisted => interface,
    }
}

// The registers after it. By the number: less code comes of it than of the kinds.
pub fn registers_after(event: u16, registers: Registers) -> Registers
    ensures { result ≡ registers_upon (event_of event) registers }
{
    if event == RESET {
        Registers::reset()
    } else {
        registers
    }
}
