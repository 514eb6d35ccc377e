// The instruction table as data, in the order of docs/INSTRUCTIONS.md.
ghost use Rattle.std.specs.Prelude.{◌≡◌, get_or};
ghost use Rattle.registers.specs.Data.{pages, codes, masks, part_rows, part_targets, part_lows, part_widths};

use registers::entry::entry;

// How many rows there are; as a row's number it means that no row matches.
pub const ROWS: usize = 21;

// The page of the rows that stand in every page.
pub const EVERY_PAGE: u8 = 8;

// Each row's page, its fixed bits with 0 at the open ones, and which bits are fixed. The search for a row names the last two as they stand, once for
// all rows that it looks at.
const PAGES: [u8; 21] = [
    8, 8, 0, 0, 0, 0, 1, 1, 1, 1, 1, 2, 2, 2, 2, 2, 3, 3, 4, 4, 4,
];

pub const CODES: [u8; 21] = [
    0b0000_0000,
    0b0000_0001,
    0b0000_1000,
    0b0001_0000,
    0b0100_0000,
    0b1000_0000,
    0b0000_0100,
    0b0000_1000,
    0b0001_0000,
    0b0011_1000,
    0b0100_0000,
    0b0000_0100,
    0b0000_1000,
    0b0001_0000,
    0b0010_0000,
    0b1000_0000,
    0b0100_0000,
    0b1000_0000,
    0b0000_0100,
    0b0000_1000,
    0b0100_0000,
];

pub const FIXED: [u8; 21] = [
    0b1111_1111,
    0b1111_1111,
    0b1111_1000,
    0b1111_0001,
    0b1110_0000,
    0b1000_0000,
    0b1111_1100,
    0b1111_1000,
    0b1111_1000,
    0b1111_1110,
    0b1111_1000,
    0b1111_1100,
    0b1111_1000,
    0b1111_1000,
    0b1111_1110,
    0b1000_0000,
    0b1111_1100,
    0b1100_0000,
    0b1111_1100,
    0b1111_1100,
    0b1110_0111,
];

// How many parts the rows have together: runs of open bits with one meaning.
pub const PARTS: usize = 29;

// Targets that are no register's place: the grey register that GR selects, and a bit that the record does not hold.
pub const SELECTED: u8 = 29;

pub const UNHELD: u8 = 30;

// Each part's row, where its bits go, its lowest bit and its width: in the order of the rows, each row's parts from the top bit.
const PART_ROWS: [u8; 29] = [
    1, 2, 3, 3, 3, 4, 5, 6, 6, 7, 7, 7, 8, 9, 10, 11, 11, 12, 13, 14, 15, 16, 17, 18, 18, 19, 19,
    20, 20,
];

const PART_TARGETS: [u8; 29] = [
    0, 0, 1, 2, 3, 10, 9, 4, 5, 6, 7, 8, 11, 12, 13, 14, 15, 16, 17, 18, 19, 20, 29, 25, 26, 27,
    28, 30, 30,
];

const PART_LOWS: [u8; 29] = [
    0, 0, 3, 2, 1, 0, 0, 1, 0, 2, 1, 0, 0, 0, 0, 1, 0, 0, 0, 0, 0, 0, 0, 1, 0, 1, 0, 4, 3,
];

const PART_WIDTHS: [u8; 29] = [
    0, 3, 1, 1, 1, 5, 7, 1, 1, 1, 1, 1, 3, 1, 3, 1, 1, 3, 3, 1, 7, 2, 6, 1, 1, 1, 1, 1, 1,
];

// Row by row: the page, the fixed bits with 0 at the open ones, and a 1 for each fixed bit. Past the last row each answers 0.
pub fn page(row: usize) -> u8
    ensures { result ≡ get_or pages row 0 }
{
    entry(&PAGES, row)
}

pub fn code(row: usize) -> u8
    ensures { result ≡ get_or codes row 0 }
{
    entry(&CODES, row)
}

pub fn fixed(row: usize) -> u8
    ensures { result ≡ get_or masks row 0 }
{
    entry(&FIXED, row)
}

// Part by part: the row that it is in, its target, its lowest bit and its width. Past the last part each answers 0.
pub fn part_row(part: usize) -> u8
    ensures { result ≡ get_or part_rows part 0 }
{
    entry(&PART_ROWS, part)
}

pub fn part_target(part: usize) -> u8
    ensures { result ≡ get_or part_targets part 0 }
{
    entry(&PART_TARGETS, part)
}

pub fn part_low(part: usize) -> u8
    ensures { result ≡ get_or part_lows part 0 }
{
    entry(&PART_LOWS, part)
}

pub fn part_width(part: usize) -> u8
    ensures { result ≡ get_or part_widths part 0 }
{
    entry(&PART_WIDTHS, part)
}
