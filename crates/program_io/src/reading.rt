// What is read: a file that is open, or standard input; and what a read came to.
ghost use Rattle.std.specs.Prelude.{◌≡◌, ◌≤◌, length, IfOk};
ghost use Rattle.program_io.specs.Answers.{answer_of, count_of};

use std::fs::File;
use std::io;
use std::io::{Read, Stdin};

#[derive(Drop)]
pub enum Source {
    Standard(Stdin),
    File(File),
}

impl Read for Source {
    fn read(&mut self, buf: &mut [u8]) -> io::Result<usize> {
        match self {
            Source::Standard(stdin) => stdin.read(buf),
            Source::File(file) => file.read(buf),
        }
    }
}

// How many bytes a read gave at the start of the buffer that it was lent: none where it failed, and never more than the buffer has.
pub fn count(got: io::Result<usize>, buf: &[u8]) -> usize
    ensures in_bounds { result ≤ length buf.now }
    ensures value { result ≡ count_of (answer_of got buf.now) }
{
    got.unwrap_or(0).min(buf.len())
}

// Reads until the buffer is full or the input ends, and gives how many bytes that were; or the error of the first read that fails.
pub fn read_full(source: &mut Source, buf: &mut [u8]) -> io::Result<usize>
    ensures { IfOk result (λ n. n ≤ length buf.new) }
{
    let mut done = 0;
    // kept (no plainer): the place is moved on by as much as a read gave, so that no range and no iterator counts it
    while done < buf.len() {
        let n = source.read(&mut buf[done..])?;
        if n == 0 {
            break;
        }
        done += n;
    }
    Ok(done)
}
