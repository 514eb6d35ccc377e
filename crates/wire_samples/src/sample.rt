// What one sample does: the wires after it, and the event that it tells, if any.
ghost use Rattle.std.specs.Prelude.{◌≡◌};
ghost use Rattle.wire_samples.specs.Sample as spec;
ghost use Rattle.wire_samples.specs.Sample.{counted_up, on_unclear, is_waiting, on_stop, in_message, with_bit, direction_of, stage_after};
ghost use Rattle.wire_samples.specs.Sample.{read_event, event_of, byte_done, on_bit, on_signal, sample_of};

use crate::signal::Signal;
use crate::{Stage, Wires};

#[derive(Clone, Copy, Debug, PartialEq, Eq)]
pub struct Sampled {
    pub wires: Wires,
    pub told: Option<u16>,
}

// All stays but the sample.
fn quiet(wires: Wires, sample: u8) -> Sampled
    ensures { result ≡ spec.quiet wires sample }
{
    Sampled {
        wires: Wires {
            last: sample,
            ..wires
        },
        told: None,
    }
}

// At this stage with no bit taken.
fn anew(wires: Wires, sample: u8, stage: Stage, told: Option<u16>) -> Sampled
    ensures { result ≡ spec.anew wires sample stage told }
{
    Sampled {
        wires: Wires {
            last: sample,
            stage,
            bits: 0,
            value: 0,
            ..wires
        },
        told,
    }
}

// No further than the largest number of 64 bits.
fn counted_up(n: u64) -> u64
    ensures { result ≡ counted_up n }
{
    n.saturating_add(1)
}

fn on_unclear(wires: Wires, sample: u8) -> Sampled
    ensures { result ≡ on_unclear wires sample }
{
    let counted = Wires {
        unclear: counted_up(wires.unclear),
        ..wires
    };
    anew(counted, sample, Stage::Waiting, None)
}

fn is_waiting(stage: Stage) -> bool
    ensures { result ≡ is_waiting stage }
{
    matches!(stage, Stage::Waiting)
}

// Told, but not while START is waited for.
#[tactic(auto, unfolding(crate::specs::Sample::on_stop))]
fn on_stop(wires: Wires, sample: u8) -> Sampled
    ensures { result ≡ on_stop wires sample }
{
    if is_waiting(wires.stage) {
        return anew(wires, sample, Stage::Waiting, None);
    }
    anew(wires, sample, Stage::Outside, Some(257))
}

fn in_message(stage: Stage) -> bool
    ensures { result ≡ in_message stage }
{
    matches!(stage, Stage::First | Stage::Writing | Stage::Reading)
}

// The high bit comes first.
fn with_bit(value: u8, bit: bool) -> u8
    ensures { result ≡ with_bit value bit }
{
    value % 128 * 2 + u8::from(bit)
}

// What the low bit of a first byte says of those that follow.
fn direction(value: u8) -> Stage
    ensures { result ≡ direction_of value }
{
    if value % 2 == 0 {
        Stage::Writing
    } else {
        Stage::Reading
    }
}

// The first byte alone gives the direction.
fn stage_after(stage: Stage, value: u8) -> Stage
    ensures { result ≡ stage_after stage value }
{
    match stage {
        Stage::First => direction(value),
        _ => stage,
    }
}

// The event of a byte read, by its ninth bit, which is low where the byte is acknowledged.
fn read_event(bit: bool) -> u16
    ensures { result ≡ read_event bit }
{
    if bit { 259 } else { 258 }
}

fn event_of(stage: Stage, value: u8, bit: bool) -> u16
    ensures { result ≡ event_of stage value bit }
{
    match stage {
        Stage::Reading => read_event(bit),
        _ => u16::from(value),
    }
}

fn byte_done(wires: Wires, sample: u8, bit: bool) -> Sampled
    ensures { result ≡ byte_done wires sample bit }
{
    let event = event_of(wires.stage, wires.value, bit);
    anew(
        wires,
        sample,
        stage_after(wires.stage, wires.value),
        Some(event),
    )
}

// Eight bits, and the ninth ends the byte.
#[tactic(auto, unfolding(crate::specs::Sample::on_bit))]
fn on_bit(wires: Wires, sample: u8, bit: bool) -> Sampled
    ensures { result ≡ on_bit wires sample bit }
{
    if !in_message(wires.stage) {
        return quiet(wires, sample);
    }
    if wires.bits < 8 {
        let taken = Wires {
            bits: wires.bits + 1,
            value: with_bit(wires.value, bit),
            ..wires
        };
        return quiet(taken, sample);
    }
    byte_done(wires, sample, bit)
}

#[tactic(auto, unfolding(crate::specs::Sample::on_signal))]
fn on_signal(wires: Wires, sample: u8, signal: Signal) -> Sampled
    ensures { result ≡ on_signal wires sample signal }
{
    match signal {
        Signal::Quiet => quiet(wires, sample),
        Signal::Start => anew(wires, sample, Stage::First, Some(256)),
        Signal::Stop => on_stop(wires, sample),
        Signal::Bit(bit) => on_bit(wires, sample, bit),
        Signal::Unclear => on_unclear(wires, sample),
    }
}

#[tactic(auto, unfolding(crate::specs::Sample::sample_of))]
pub fn sample(wires: Wires, sample: u8) -> Sampled
    ensures { result ≡ sample_of wires sample }
{
    on_signal(wires, sample, crate::signal::between(wires.last, sample))
}
