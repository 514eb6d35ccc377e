// The search for the row of a command byte: page return first, then the rows of the present page alone, up to the one that takes the byte.
#![tactic(auto)]

ghost use Rattle.std.specs.Prelude.{◌≡◌, ◌≤◌};
ghost use Rattle.registers.specs.Table.{row_at};
ghost use Rattle.row_search.specs.Search.{held_in, found_among, search_of};

use instruction_table::table::{CODES, FIXED, ROWS};
use registers::entry::entry;

// The pages of commands: function and RAM, display setting, high voltage generator, grey-scale and colour, special features. There is no other, so
// no other can be asked for.
#[derive(Clone, Copy, Debug, PartialEq, Eq, Hash)]
pub enum Page {
    Function,
    Display,
    Generator,
    Grey,
    Special,
}

// The row that takes the byte, or ROWS, and how many rows were looked at.
#[derive(Clone, Copy, Debug, PartialEq, Eq, Hash)]
pub struct Found {
    pub row: usize,
    pub looked: usize,
}

// The rows of each page by their numbers, in the order in which they are looked at. docs/INSTRUCTIONS.md says why it is this one.
pub const FUNCTION: [u8; 6] = [1, 5, 4, 2, 3, 0];

pub const DISPLAY: [u8; 7] = [1, 6, 7, 10, 8, 9, 0];

pub const GENERATOR: [u8; 7] = [1, 15, 14, 12, 11, 13, 0];

pub const GREY: [u8; 4] = [1, 17, 16, 0];

pub const SPECIAL: [u8; 5] = [1, 18, 19, 20, 0];

// The independent command page: the rows that stand in every page.
const INDEPENDENT: [u8; 2] = [1, 0];

// Looks at these rows, one after the other, up to the one that takes the byte. The tables are laid out once, before the first row: a constant is laid
// out anew wherever it is named.
fn look(rows: &[u8], byte: u8) -> Found
    ensures { result ≡ found_among rows.now byte }
{
    let fixed = FIXED;
    let codes = CODES;
    let mut looked = 0;
    for row in rows {
        looked += 1;
        let row = usize::from(*row);
        if byte & entry(&fixed, row) == entry(&codes, row) {
            return Found { row, looked };
        }
    }
    Found { row: ROWS, looked }
}

pub fn find(page: Page, byte: u8) -> Found
    ensures { result ≡ search_of page byte }
{
    match page {
        Page::Function => look(&FUNCTION, byte),
        Page::Display => look(&DISPLAY, byte),
        Page::Generator => look(&GENERATOR, byte),
        Page::Grey => look(&GREY, byte),
        Page::Special => look(&SPECIAL, byte),
    }
}

// The page in which H holds this number.
fn page_of(h: u8) -> Page
    requires { h ≤ 4 }
    ensures { held_in result ≡ h }
{
    match h {
        0 => Page::Function,
        1 => Page::Display,
        2 => Page::Generator,
        3 => Page::Grey,
        _ => Page::Special,
    }
}

// The row alone, by what H holds. Above 4, which no allowed record has, only the rows of every page are left.
pub fn row_at(h: u8, byte: u8) -> usize
    ensures { result ≡ row_at h byte }
{
    if 4 < h {
        return look(&INDEPENDENT, byte).row;
    }
    find(page_of(h), byte).row
}
