// Drawing lists: the grammar of a line, the reader of a list, and functions with plain parameters above it.
#![tactic(auto)]

ghost use Rattle.std.specs.Prelude.{◌≡◌};
ghost use Rattle.lists.specs.Lists.{newlines, told, line_at, newline_before};

use refusals::Refusal;

pub mod grammar;
pub mod reader;

use crate::reader::Reader;

const NEWLINE: u8 = b'\n';

// What a line asks for. `put` is a fill of one cell. A register is given by its place in the record's order.
#[derive(Clone, Copy, Debug, PartialEq, Eq)]
pub enum Line {
    Fill {
        first_column: u8,
        last_column: u8,
        first_bank: u8,
        last_bank: u8,
        byte: u8,
    },
    Set {
        field: u8,
        value: u8,
    },
}

// The line at a place of a text, or why it is refused, and the place where the next one starts.
#[derive(Clone, Copy)]
pub struct LineAt {
    pub parsed: Result<Line, Refusal>,
    pub next: usize,
}

// The line of the reader of this text at this place. Whoever calls it passes plain numbers and slices.
pub fn line_at(text: &[u8], at: usize) -> LineAt
    ensures { told result ≡ line_at text.now at }
{
    Reader::new(text, at).line()
}

// 1 where the byte before a place is a newline, else 0.
#[tactic(auto, unfolding(crate::specs::Lists::newline_before))]
fn newline_before(text: &[u8], at: usize) -> usize
    ensures { result ≡ newline_before text.now at }
{
    if at == 0 || text.len() < at {
        return 0;
    }
    usize::from(text[at - 1] == NEWLINE)
}

// How many newlines a text has: one reader goes over it from line to line.
pub fn count_newlines(text: &[u8]) -> usize
    ensures { result ≡ newlines text.now }
{
    let mut reader = Reader::new(text, 0);
    let mut count = 0;
    // kept (promise): count_newlines takes one reader from line to line over a whole text.
    while reader.at < text.len() {
        reader = reader.next();
        count += newline_before(text, reader.at);
    }
    count
}
