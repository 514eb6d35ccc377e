// The registers' names as drawing lists write them, in the record's order: one text, with a space between any two.
ghost use Rattle.std.specs.Prelude.{◌≡◌};
ghost use Rattle.text.specs.Text.{join, index_of};
ghost use Rattle.registers.specs.Record.{names};

use text::pieces::index_of;

const NAMES: [u8; 88] =
    *b"h do pd v d e mx my ps x y bs bsh dp prs hve s tc sm vop gr gs0 gs1 gs2 gs3 dof dm ec oc";

// What parts the names.
pub const SEPARATOR: u8 = b' ';

// All names. A name is a piece of this text, by its register's place.
pub fn all() -> [u8; 88]
    ensures { result ≡ join 32 names }
{
    NAMES
}

// The place of the register of that name; where no register has it, 29.
pub fn place(name: &[u8]) -> usize
    ensures { result ≡ index_of name.now names }
{
    index_of(&NAMES, SEPARATOR, name)
}
