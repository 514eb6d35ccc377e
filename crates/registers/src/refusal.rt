// The refusals that several crates test.
ghost use Rattle.std.specs.Prelude.{◌≡◌};
ghost use Rattle.refusals.specs.Numbers.{refused_by};
ghost use Rattle.registers.specs.Refusals.{length_refusal, lengths_refusal, record_refusal, is_listed_event};

use crate::Chip;
use refusals::Refusal;

// A lent memory of another length.
pub fn length(memory_len: usize) -> Result<(), Refusal>
    ensures { refused_by result ≡ length_refusal memory_len }
{
    if memory_len == 1717 {
        Ok(())
    } else {
        Err(Refusal::MemoryLength)
    }
}

// The same of both memories: display bytes and writer numbers.
pub fn lengths(memory_len: usize, writers_len: usize) -> Result<(), Refusal>
    ensures { refused_by result ≡ lengths_refusal memory_len writers_len }
{
    length(memory_len)?;
    length(writers_len)
}

// A record that is not allowed.
pub fn record(chip: Chip) -> Result<(), Refusal>
    ensures { refused_by result ≡ record_refusal chip }
{
    if chip.allowed() {
        Ok(())
    } else {
        Err(Refusal::Record)
    }
}

// Any other event number is refused.
pub fn is_listed_event(event: u16) -> bool
    ensures { result ≡ is_listed_event event }
{
    (event <= 260) | ((512 <= event) & (event <= 767))
}
