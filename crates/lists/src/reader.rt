// The list reader: the text of a drawing list, and where in it the next line starts. Its methods are thin: the work is left to
// functions over a plain slice and a position.
ghost use Rattle.std.specs.Prelude.{◌≡◌};
ghost use Rattle.lists.specs.Lists.{told, line_at, next_line, reader_at, line_here, past_line};

use crate::{LineAt, NEWLINE};
use refusals::Refusal;

#[derive(Clone, Copy)]
pub struct Reader<'a> {
    pub text: &'a [u8],
    pub at: usize,
}

// The line that starts at `at`, up to the next newline. Where no newline follows it is 6, and the text is at its end.
fn line_from(text: &[u8], at: usize) -> LineAt
    ensures { told result ≡ line_at text.now at }
{
    let end = text::search::find(text, at, NEWLINE);
    if end < text.len() {
        return LineAt {
            parsed: crate::grammar::line(&text[at..end]),
            next: end + 1,
        };
    }
    LineAt {
        parsed: Err(Refusal::MalformedLine),
        next: text.len(),
    }
}

// The place behind the next newline, or the end of the text where none follows.
fn next_line(text: &[u8], at: usize) -> usize
    ensures { result ≡ next_line text.now at }
{
    let end = text::search::find(text, at, NEWLINE);
    if end < text.len() {
        return end + 1;
    }
    text.len()
}

impl<'a> Reader<'a> {
    // A reader at a place of a text.
    pub fn new(text: &'a [u8], at: usize) -> Reader<'a>
        ensures { result ≡ reader_at text.entry at }
    {
        Reader { text, at }
    }

    // The line where it stands, and where the next one starts.
    pub fn line(self) -> LineAt
        ensures { told result ≡ line_here self.entry }
    {
        line_from(self.text, self.at)
    }

    // The reader past the line where it stands.
    pub fn next(self) -> Reader<'a>
        ensures { result ≡ past_line self.entry }
    {
        Reader {
            at: next_line(self.text, self.at),
            ..self
        }
    }
}
