// The bytes of a line, one after the other.
ghost use Rattle.std.specs.Prelude.{◌≡◌, drop};
ghost use Rattle.capture_lines.specs.SoFar.{on_word, on_digit, takes_digit, on_number, with_byte, scanned_from, PartlyScanned};

use crate::{LineSoFar, Scanned};

pub const NEWLINE: u8 = b'\n';

// What the first line begins with.
const WORD: [u8; 5] = *b"pins\t";

// The first line with k bytes: the next of the word, and then the pins.
fn on_word(k: u8, byte: u8) -> LineSoFar
    ensures { result ≡ on_word k byte }
{
    match WORD.get(usize::from(k)) {
        Some(next) if byte == *next => LineSoFar::First(k + 1),
        None if matches!(byte, b'0'..=b'3') => LineSoFar::Pins(byte - b'0'),
        _ => LineSoFar::BadFirst,
    }
}

// The first digit of an event.
fn on_digit(byte: u8) -> LineSoFar
    ensures { result ≡ on_digit byte }
{
    if byte.is_ascii_digit() {
        return LineSoFar::Number(u16::from(byte - b'0'));
    }
    LineSoFar::Bad
}

// Whether a digit may follow those of n: none follows a 0, and none a number of three digits.
fn takes_digit(n: u16) -> bool
    ensures { result ≡ takes_digit n }
{
    (0 < n) & (n < 100)
}

// One digit more.
fn on_number(n: u16, byte: u8) -> LineSoFar
    ensures { result ≡ on_number n byte }
{
    if takes_digit(n) && byte.is_ascii_digit() {
        return LineSoFar::Number(n * 10 + u16::from(byte - b'0'));
    }
    LineSoFar::Bad
}

// The line with one byte more, which is no newline.
#[tactic(auto, unfolding(crate::specs::SoFar::with_byte))]
fn with_byte(line: LineSoFar, byte: u8) -> LineSoFar
    ensures { result ≡ with_byte line byte }
{
    match line {
        LineSoFar::First(k) => on_word(k, byte),
        LineSoFar::Pins(_) => LineSoFar::BadFirst,
        LineSoFar::Empty => on_digit(byte),
        LineSoFar::Number(n) => on_number(n, byte),
        LineSoFar::BadFirst => LineSoFar::BadFirst,
        LineSoFar::Bad => LineSoFar::Bad,
    }
}

// The line with the bytes from a place on, up to the next newline or to the end of the part.
pub fn scan_bytes(line: LineSoFar, part: &[u8], from: usize) -> Scanned
    ensures { result ≡ scanned_from from (drop from part.now) line }
{
    let mut read = line;
    for at in from..part.len() {
        let byte = part[at];
        if byte == NEWLINE {
            return Scanned { line: read, at };
        }
        read = with_byte(read, byte);
    }
    Scanned {
        line: read,
        at: from.max(part.len()),
    }
}

// The digits behind those of a number, as far as they may follow: what is left to scan comes to the same.
fn more_digits(number: u16, part: &[u8], from: usize) -> Scanned
    ensures { PartlyScanned part.now from (LineSoFar.Number number) result }
{
    let mut n = number;
    for at in from..part.len() {
        let byte = part[at];
        if takes_digit(n) && byte.is_ascii_digit() {
            n = n * 10 + u16::from(byte - b'0');
        } else {
            return Scanned {
                line: LineSoFar::Number(n),
                at,
            };
        }
    }
    Scanned {
        line: LineSoFar::Number(n),
        at: from.max(part.len()),
    }
}

// The digits at the start of an event line, likewise. Of any other line nothing is read.
pub fn digits(line: LineSoFar, part: &[u8], from: usize) -> Scanned
    ensures { PartlyScanned part.now from line result }
{
    match line {
        LineSoFar::Empty if from < part.len() && part[from].is_ascii_digit() => {
            more_digits(u16::from(part[from] - b'0'), part, from + 1)
        }
        _ => Scanned { line, at: from },
    }
}
