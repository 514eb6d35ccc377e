// The bus phases by the host's numbers.
ghost use Rattle.std.specs.Prelude.{◌≡◌, ◌≤◌};
ghost use Rattle.record_words.specs.Words.{phase_of, phase_number};

use registers::Phase;

pub fn of(number: u64, rs: bool) -> Phase
    requires { number ≤ 7 }
    ensures { result ≡ phase_of number rs }
{
    match number {
        0 => Phase::Idle,
        1 => Phase::AddressAwaited,
        2 => Phase::Ignoring,
        3 => Phase::ControlAwaited,
        4 => Phase::OneByte(rs),
        5 => Phase::EndlessBytes(rs),
        6 => Phase::Reading,
        _ => Phase::ReadEnded,
    }
}

// kept (no plainer): `From<Phase> for u64` can't stand here, since neither the phase nor `u64` is a type of this crate
pub fn number(phase: Phase) -> u64
    ensures { result ≡ phase_number phase }
{
    match phase {
        Phase::Idle => 0,
        Phase::AddressAwaited => 1,
        Phase::Ignoring => 2,
        Phase::ControlAwaited => 3,
        Phase::OneByte(_) => 4,
        Phase::EndlessBytes(_) => 5,
        Phase::Reading => 6,
        Phase::ReadEnded => 7,
    }
}
