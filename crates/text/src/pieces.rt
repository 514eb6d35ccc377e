// Text parted by a separator: one piece more than there are separators, and pieces may be empty.
ghost use Rattle.std.specs.Prelude.{◌≡◌, [], length, get_or};
ghost use Rattle.text.specs.Text.{split, index_of};

use crate::search::{count, equal};

// How many pieces there are.
pub fn pieces(s: &[u8], separator: u8) -> usize
    ensures { result ≡ length (split separator s.now) }
{
    count(s, separator) + 1
}

// Piece k, counted from 0. Past the last piece it is empty.
pub fn piece(s: &[u8], separator: u8, k: usize) -> &[u8]
    ensures { result.now ≡ get_or (split separator s.now) k [] }
{
    s.split(|b| *b == separator).nth(k).unwrap_or(&[])
}

// The number of the first piece that holds the word; where none does, the number of pieces.
pub fn index_of(s: &[u8], separator: u8, word: &[u8]) -> usize
    ensures { result ≡ index_of word.now (split separator s.now) }
{
    s.split(|b| *b == separator)
        .take_while(|piece| !equal(piece, word))
        .count()
}
