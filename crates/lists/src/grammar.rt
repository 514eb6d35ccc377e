// One line of a drawing list, without its newline. Malformed comes before out of range: 6 before 7. No row of the instruction
// table is on the list of those that can't be read, so 8 never comes.
ghost use Rattle.std.specs.Prelude.{◌≡◌, Some, option_map};
ghost use Rattle.refusals.specs.Numbers.{numbered};
ghost use Rattle.text.specs.Text.{split};
ghost use Rattle.lists.specs.Line.{tab, is_field, fill_fits, fill_within, set_within, set_of, number_in, or_malformed, put_line, fill_line, set_line, line_of};

use crate::Line;
use refusals::Refusal;
use text::decimal::number;
use text::pieces::piece;
use text::search::equal;

const TAB: u8 = b'\t';

// Whether a `set` line can name the register at that place: all but h, x, y and gr.
fn is_field(place: usize) -> bool
    ensures { result ≡ is_field place }
{
    place < 29 && !matches!(place, 0 | 9 | 10 | 20)
}

// Columns to 100 and banks to 16, each pair in order; a byte, and in bank 16 one of six bits.
fn fill_fits(c0: u16, c1: u16, b0: u16, b1: u16, n: u16) -> bool
    ensures { result ≡ fill_fits c0 c1 b0 b1 n }
{
    c0 <= 100
        && c1 <= 100
        && b0 <= 16
        && b1 <= 16
        && c0 <= c1
        && b0 <= b1
        && n <= 255
        && (b1 < 16 || n <= 63)
}

fn fill(c0: u16, c1: u16, b0: u16, b1: u16, n: u16) -> Result<Line, Refusal>
    ensures { numbered result ≡ fill_within c0 c1 b0 b1 n }
{
    if !fill_fits(c0, c1, b0, b1, n) {
        return Err(Refusal::NumberOutOfRange);
    }
    Ok(Line::Fill {
        first_column: c0 as u8,
        last_column: c1 as u8,
        first_bank: b0 as u8,
        last_bank: b1 as u8,
        byte: n as u8,
    })
}

fn set_within(field: u8, n: u16) -> Result<Line, Refusal>
    ensures { numbered result ≡ set_within field n }
{
    let limit = registers::limits::limit(usize::from(field));
    if u16::from(limit) < n {
        return Err(Refusal::NumberOutOfRange);
    }
    Ok(Line::Set {
        field,
        value: n as u8,
    })
}

// A field by the place of the register of its name, or 29 where no register has it.
fn set(place: usize, n: u16) -> Result<Line, Refusal>
    ensures { numbered result ≡ set_of place (Some n) }
{
    if !is_field(place) {
        return Err(Refusal::MalformedLine);
    }
    set_within(place as u8, n)
}

// A field as a number; where there is no field, there is none.
fn number_in(field: Option<&[u8]>) -> Result<u16, Refusal>
    ensures { numbered result ≡ or_malformed (number_in (option_map (λ s. s.now) field.entry)) }
{
    field.and_then(number).ok_or(Refusal::MalformedLine)
}

// `put` column bank byte.
fn put_line(s: &[u8]) -> Result<Line, Refusal>
    ensures { numbered result ≡ put_line (split tab s.now) }
{
    let mut fields = s.split(|b| *b == TAB);
    let _word = fields.next();
    let column = number_in(fields.next())?;
    let bank = number_in(fields.next())?;
    let byte = number_in(fields.next())?;
    if fields.next().is_some() {
        return Err(Refusal::MalformedLine);
    }
    fill(column, column, bank, bank, byte)
}

// `fill` c0 c1 b0 b1 byte.
fn fill_line(s: &[u8]) -> Result<Line, Refusal>
    ensures { numbered result ≡ fill_line (split tab s.now) }
{
    let mut fields = s.split(|b| *b == TAB);
    let _word = fields.next();
    let c0 = number_in(fields.next())?;
    let c1 = number_in(fields.next())?;
    let b0 = number_in(fields.next())?;
    let b1 = number_in(fields.next())?;
    let byte = number_in(fields.next())?;
    if fields.next().is_some() {
        return Err(Refusal::MalformedLine);
    }
    fill(c0, c1, b0, b1, byte)
}

// `set` field number.
fn set_line(s: &[u8]) -> Result<Line, Refusal>
    ensures { numbered result ≡ set_line (split tab s.now) }
{
    let mut fields = s.split(|b| *b == TAB);
    let _word = fields.next();
    let name = fields.next().ok_or(Refusal::MalformedLine)?;
    let value = number_in(fields.next())?;
    if fields.next().is_some() {
        return Err(Refusal::MalformedLine);
    }
    set(registers::names::place(name), value)
}

#[tactic(auto, unfolding(crate::specs::Line::line_of))]
pub fn line(s: &[u8]) -> Result<Line, Refusal>
    ensures { numbered result ≡ line_of s.now }
{
    let word = piece(s, TAB, 0);
    if equal(word, b"put") {
        put_line(s)
    } else if equal(word, b"fill") {
        fill_line(s)
    } else if equal(word, b"set") {
        set_line(s)
    } else {
        Err(Refusal::MalformedLine)
    }
}
