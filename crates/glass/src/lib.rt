// The glass: what a row and column show, and which place of the memories that is. Nothing is changed.
#![tactic(auto)]

ghost use Rattle.std.specs.Prelude.{◌≡◌, ◌≤◌};
ghost use Rattle.refusals.specs.Numbers.{numbered};
ghost use Rattle.glass.specs.Pixel.{place_at};
ghost use Rattle.glass.specs.Glass.{cell_of, glass_of};

use crate::answer::Shown;
use refusals::Refusal;
use registers::Chip;

pub mod answer;
pub mod pixel;
pub mod refusal;

// A bank has four rows. MX is not asked: it moves bytes as they are written.
fn place_at(ram: usize, column: usize) -> usize
    requires ram_bound { ram ≤ 66 }
    requires column_bound { column ≤ 100 }
    ensures { result ≡ place_at ram column }
{
    101 * (ram / 4) + column
}

// What a row and column of the glass show of the display memory.
#[tactic(auto, using(crate::proofs::CodeWays::refused_told, crate::proofs::CodeWays::accepted_told), unfolding(crate::specs::Glass::glass_of))]
pub fn glass(chip: Chip, memory: &[u8], row: usize, column: usize) -> Result<Shown, Refusal>
    ensures { numbered result ≡ glass_of chip memory.now row column }
{
    refusal::of_glass(chip, memory.len(), row, column)?;
    let ram = pixel::ram_row(chip.registers.my, row);
    let at = place_at(ram, column);
    Ok(pixel::shown(chip.registers, ram, memory[at]))
}

// Which place of the memories, display bytes and writer numbers, 0 to 1716, a row and column of the glass show.
#[tactic(auto, using(crate::proofs::CodeWays::refused_told, crate::proofs::CodeWays::accepted_told), unfolding(crate::specs::Glass::cell_of))]
pub fn place(chip: Chip, row: usize, column: usize) -> Result<u16, Refusal>
    ensures { numbered result ≡ cell_of chip row column }
{
    refusal::of_place(chip, row, column)?;
    let ram = pixel::ram_row(chip.registers.my, row);
    Ok(place_at(ram, column) as u16)
}
