// How the chip answers a command byte, beside its acknowledge.
ghost use Rattle.std.specs.Prelude.{◌≡◌};
ghost use Rattle.registers.specs.Table.{in_range};
ghost use Rattle.commands.specs.Command.{parts_at, row_answer, command_number, is_taken, counts};

use instruction_table::table::ROWS;

// Taken: it is a byte of a row of the present page, and its numbers are in range. Unknown: it is of no such row. Out of range: its page, Y or X is
// one that there is not, and the register stays as it is.
#[derive(Clone, Copy, Debug, PartialEq, Eq, Hash)]
pub enum CommandAnswer {
    Taken,
    Unknown,
    OutOfRange,
}

impl CommandAnswer {
    // The host's number for it.
    pub fn number(self) -> u64
        ensures { result ≡ command_number self }
    {
        match self {
            CommandAnswer::Taken => 259,
            CommandAnswer::Unknown => 260,
            CommandAnswer::OutOfRange => 261,
        }
    }

    pub fn is_taken(self) -> bool
        ensures { result ≡ is_taken self }
    {
        matches!(self, CommandAnswer::Taken)
    }

    // 1 where it is this one, 0 where it is another.
    pub fn counts(self, one: CommandAnswer) -> usize
        ensures { result ≡ counts one self }
    {
        usize::from(self == one)
    }
}

// Whether the row's registers take what the byte says. Only pages, Y and X have a limit below what their bits can say.
fn in_range(row: usize, byte: u8) -> bool
    ensures { result ≡ in_range (parts_at row) byte }
{
    match row {
        2 => byte % 8 <= 4,
        4 => byte % 32 <= 16,
        5 => byte % 128 <= 100,
        _ => true,
    }
}

// By the row that was found; past the table there is none.
pub fn of_row(row: usize, byte: u8) -> CommandAnswer
    ensures { result ≡ row_answer row byte }
{
    if ROWS <= row {
        return CommandAnswer::Unknown;
    }
    if in_range(row, byte) {
        CommandAnswer::Taken
    } else {
        CommandAnswer::OutOfRange
    }
}
