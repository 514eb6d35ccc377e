// The replay listing: the cells that have a writer, by bank, then column; the line that says where a capture is bad; and which of the two is printed.
#![tactic(auto)]

ghost use Rattle.std.specs.Prelude.{◌≡◌, ◌+◌, length};
ghost use Rattle.refusals.specs.Numbers.{numbered};
ghost use Rattle.registers.specs.State.{places};
ghost use Rattle.print.specs.Printed.{output, whole_text};
ghost use Rattle.print.specs.Prints.{Prints, written_of};
ghost use Rattle.listing.specs.Listing.{cell, cell_text, line_of_cell, listing_of, refused_of, listing_call};
ghost use Rattle.listing.specs.ReplayText.{refused_call, replay_text_call};

use capture::End;
use print::{Printout, Unprinted};
use refusals::Refusal;

// One cell's line.
fn cell(column: u64, bank: u64, byte: u8, event: u64, out: &mut Printout)
    ensures { Prints out.old (cell_text (cell column bank byte event)) out.new }
{
    out.field(column, b'\t');
    out.field(bank, b'\t');
    out.field(u64::from(byte), b'\t');
    out.field(event, b'\n');
}

// The line of the cell at that place, if it has a writer.
fn cell_at(place: usize, byte: u8, event: u64, out: &mut Printout)
    ensures { Prints out.old (line_of_cell place byte event) out.new }
{
    if event != 0 {
        cell((place % 101) as u64, (place / 101) as u64, byte, event, out);
    }
}

// The whole text. Places rise bank by bank, and in a bank column by column.
fn cells(memory: &[u8], writers: &[u64], out: &mut Printout)
    requires { (length memory.now ≡ places) × (length writers.now ≡ places) }
    ensures { Prints out.old (listing_of memory.now writers.now) out.new }
{
    out.bytes(b"column\tbank\tbyte\tevent\n");
    for (place, event) in writers.iter().enumerate() {
        cell_at(place, memory[place], *event, out);
    }
}

// The listing of these memories, from the start of `out` on.
pub fn listing(memory: &[u8], writers: &[u64], out: &mut [u8]) -> Result<usize, Unprinted>
    ensures { output (written_of result) out.new ≡ listing_call memory.now writers.now out.old }
{
    registers::refusal::lengths(memory.len(), writers.len())?;
    print::whole(|printout| cells(memory, writers, printout), out)
}

fn refused_line(file: &[u8], n: u64, k: u8, out: &mut Printout)
    ensures { Prints out.old (refused_of file.now (n + k)) out.new }
{
    out.bytes(b"refused\t");
    out.bytes(file);
    out.decimal_plus(n, k);
    out.byte(b'\n');
}

// The line of a capture that is bad at line n + k, which may be past the largest u64: a capture's event n, from 0, stands in line n + 2.
fn refused_at(file: &[u8], n: u64, k: u8, out: &mut [u8]) -> Result<usize, Unprinted>
    ensures { output (written_of result) out.new ≡ whole_text 0 (refused_of file.now (n + k)) out.old }
{
    print::whole(|printout| refused_line(file, n, k, printout), out)
}

// The one line of a capture that was refused at a line, from the start of `out` on; nothing of one that was replayed. What `file` holds stands before
// the line's number: a program with several captures tells there which it is.
pub fn refused(file: &[u8], end: Result<End, Refusal>, out: &mut [u8]) -> Result<usize, Unprinted>
    ensures { output (written_of result) out.new ≡ refused_call file.now (numbered end) out.old }
{
    match end? {
        End::BadFirst => refused_at(file, 0, 1, out),
        End::Bad(_, count) => refused_at(file, count, 2, out),
        End::Whole(_, _) => Ok(0),
    }
}

// What is printed of a capture that came to `end` and left these memories: the listing, or the line where it is bad, from the start of `out` on.
pub fn replay_text(
    end: Result<End, Refusal>,
    memory: &[u8],
    writers: &[u64],
    out: &mut [u8],
) -> Result<usize, Unprinted>
    ensures { output (written_of result) out.new ≡ replay_text_call (numbered end) memory.now writers.now out.old }
{
    registers::refusal::lengths(memory.len(), writers.len())?;
    match end? {
        End::Whole(_, _) => listing(memory, writers, out),
        _ => refused(b"", end, out),
    }
}
