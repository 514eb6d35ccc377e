// The refusals of an event, in the order of document 01's table.
ghost use Rattle.std.specs.Prelude.{cond, ◌≡◌, ltb, length, get_or};
ghost use Rattle.refusals.specs.Numbers.{number_of, refused_by};
ghost use Rattle.engine.specs.Step.{entry_for, event_refusal};

use refusals::Refusal;
use registers::Chip;

// 1: a lent memory of another length; 2: a record that is not allowed.
pub fn at_entry(chip: Chip, memory_len: usize, writers_len: usize) -> Result<(), Refusal>
    ensures { refused_by result ≡ entry_for chip memory_len writers_len }
{
    registers::refusal::lengths(memory_len, writers_len)?;
    registers::refusal::record(chip)
}

// 3: an event number that is not listed; 4: a full count.
#[tactic(auto, unfolding(crate::specs::Step::event_refusal))]
fn of_event(event: u16, count: u64) -> Option<Refusal>
    ensures { number_of result ≡ event_refusal event count }
{
    if !registers::refusal::is_listed_event(event) {
        Some(Refusal::UnlistedEvent)
    } else if count == u64::MAX {
        Some(Refusal::FullCount)
    } else {
        None
    }
}

// Of the event behind those that were done, if one is left.
pub fn of_next(events: &[u16], done: usize, count: u64) -> Option<Refusal>
    ensures { number_of result ≡ cond (ltb done (length events.now)) (event_refusal (get_or events.now done 0) count) 0 }
{
    of_event(*events.get(done)?, count)
}
