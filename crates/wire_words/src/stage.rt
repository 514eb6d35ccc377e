// The stages by the host's numbers.
// kept (no plainer): Stage and u64 are both of other crates, so that neither From nor TryFrom can be written between them here
ghost use Rattle.std.specs.Prelude.{◌≡◌, ◌≤◌};
ghost use Rattle.wire_words.specs.Words.{stage_of, stage_number};

use wire_samples::Stage;

pub fn of(number: u64) -> Stage
    requires { number ≤ 4 }
    ensures { result ≡ stage_of number }
{
    match number {
        0 => Stage::Outside,
        1 => Stage::Waiting,
        2 => Stage::First,
        3 => Stage::Writing,
        _ => Stage::Reading,
    }
}

pub fn number(stage: Stage) -> u64
    ensures { result ≡ stage_number stage }
{
    match stage {
        Stage::Outside => 0,
        Stage::Waiting => 1,
        Stage::First => 2,
        Stage::Writing => 3,
        Stage::Reading => 4,
    }
}
