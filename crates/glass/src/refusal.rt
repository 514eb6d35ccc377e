// The refusals of the glass, in the order of document 01's table.
ghost use Rattle.std.specs.Prelude.{◌≡◌};
ghost use Rattle.refusals.specs.Numbers.{refused_by};
ghost use Rattle.glass.specs.Glass.{place_refusal, glass_refusal};

use refusals::Refusal;
use registers::Chip;

// A record that is not allowed; then a row or column that the glass does not have.
#[tactic(auto, unfolding(crate::specs::Glass::place_refusal))]
pub fn of_place(chip: Chip, row: usize, column: usize) -> Result<(), Refusal>
    ensures { refused_by result ≡ place_refusal chip row column }
{
    registers::refusal::record(chip)?;
    if (66 < row) | (100 < column) {
        return Err(Refusal::OutsideGlass);
    }
    Ok(())
}

// Before those a memory of another length.
#[tactic(auto, unfolding(crate::specs::Glass::glass_refusal))]
pub fn of_glass(chip: Chip, memory_len: usize, row: usize, column: usize) -> Result<(), Refusal>
    ensures { refused_by result ≡ glass_refusal chip memory_len row column }
{
    registers::refusal::length(memory_len)?;
    of_place(chip, row, column)
}
