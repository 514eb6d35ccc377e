// What the programs share: words that mean something, messages, the input that an argument names, and output.
//
// No contract can say what the system did with a call, and these say no more than they can. A program that never asks the system meets them too;
// that the inputs are read and the texts written is tested: tests/programs compares the programs with the model's on files and pipes, and their
// messages with the bytes that they must be. How a line is composed is an equation, in `words`.
#![tactic(auto)]

pub mod reading;
pub mod words;

ghost use Rattle.std.specs.Prelude.{true, ◌≡◌, ◌≤◌, length, MatchOption};
ghost use Rattle.print.specs.Printed.{written_length};
ghost use Rattle.print.specs.Prints.{written_of};
ghost use Rattle.program_io.specs.Promises.{NothingPromised};

use print::{Printout, Unprinted};
use reading::Source;
use std::env::FillError;
use std::fs::File;
use std::io::Write;
use std::rt::Env;
use std::{io, str};

// The numbers by which Linux calls them: a name that is longer than any path, no such argument, and a name that is no text.
const NAME_TOO_LONG: i32 = 36;

const NO_SUCH_ARGUMENT: i32 = 22;

const NO_TEXT: i32 = 84;

// Room for N bytes, as for a text or for a part of an input.
pub fn room<const N: usize>() -> [u8; N]
    ensures { N ≡ length result }
{
    [0; N]
}

// A text that was printed into `out`, on standard error. The program's own name stands at its start, and a newline at its end. One that had no room,
// or that is not taken, is told nowhere.
pub fn say_text(rt: &HostRuntime, out: &[u8], printed: Result<usize, Unprinted>)
    ensures { NothingPromised }
{
    if let Some(text) = printed.ok().and_then(|n| out.get(..n)) {
        let _ = rt.stderr().write_all(text);
    }
}

// One line on standard error: the program's name, or a title that begins with it, a colon, a blank and the message.
pub fn say(rt: &HostRuntime, title: &[u8], message: &[u8])
    ensures { NothingPromised }
{
    let mut line = room::<65536>();
    let mut text = Printout {
        out: &mut line,
        at: 0,
    };
    words::message(title, message, &mut text);
    let length = text.at;
    say_text(rt, &line, Ok(length));
}

// One line on standard error: what is wrong with the call, and how the program is called.
pub fn wrong_call(rt: &HostRuntime, program: &[u8], fault: &[u8], usage: &[u8])
    ensures { NothingPromised }
{
    let mut line = room::<65536>();
    let mut text = Printout {
        out: &mut line,
        at: 0,
    };
    words::wrong_call(program, fault, usage, &mut text);
    let length = text.at;
    say_text(rt, &line, Ok(length));
}

// The words of an error, as much of them as has room, and how long they are.
fn error_words(error: io::Error, out: &mut [u8]) -> usize
    ensures { result ≤ length out.new }
{
    let room = out.len();
    let mut rest = out;
    let _ = write!(rest, "{error}");
    room.saturating_sub(rest.len())
}

// The reason in them: the system's words, without the number that std puts behind them, ` (os error 2)`.
fn reason(words: &[u8]) -> &str {
    let text = str::from_utf8(words).unwrap_or("");
    match text.split_once(" (os error ") {
        Some((reason, _)) => reason,
        None => text,
    }
}

// A call of the system failed: one line on standard error has the title, a colon and the reason.
pub fn say_error(rt: &HostRuntime, title: &[u8], error: io::Error)
    ensures { NothingPromised }
{
    let mut text = [0u8; 512];
    let n = error_words(error, &mut text);
    say(rt, title, reason(&text[..n]).as_bytes());
}

// A text that was printed into `out`, on standard output; nothing of one that was refused. Whether all of it was taken; where not, that has been said.
// A text that had too little room, which the bounds of the texts shut out, is not put.
pub fn put_text(
    rt: &HostRuntime,
    program: &[u8],
    out: &[u8],
    printed: Result<usize, Unprinted>,
) -> bool
    ensures { result ≡ true → written_length (written_of printed) ≤ length out.now }
{
    let n = print::length_of(printed);
    let Some(text) = out.get(..n) else {
        say(
            rt,
            program,
            b"standard output: no room for a text of this length",
        );
        return false;
    };
    match rt.stdout().write_all(text) {
        Ok(()) => true,
        Err(error) => {
            let mut title = room::<65536>();
            let n = words::title(program, b"standard output", &mut title);
            say_error(rt, &title[..n], error);
            false
        }
    }
}

// Whether there is such an argument. The program's own name is argument 0.
pub fn is_given(rt: &HostRuntime, argument: usize) -> bool
    ensures { NothingPromised }
{
    let mut word = [0u8; 1];
    !matches!(rt.arg(argument, &mut word), Err(FillError::NotPresent))
}

// Whether an argument is there and is `--help`.
fn is_help(rt: &HostRuntime, argument: usize) -> bool {
    let mut word = [0u8; 16];
    match rt.arg(argument, &mut word) {
        Ok(n) => words::is_help(&word[..n]),
        Err(_) => false,
    }
}

// Whether the only argument is `--help`. Then how the program is called has been put on standard output.
pub fn helped(rt: &HostRuntime, program: &[u8], usage: &[u8]) -> bool
    ensures { NothingPromised }
{
    if is_given(rt, 2) || !is_help(rt, 1) {
        return false;
    }
    let mut line = room::<65536>();
    let mut text = Printout {
        out: &mut line,
        at: 0,
    };
    words::usage_line(usage, &mut text);
    let length = text.at;
    put_text(rt, program, &line, Ok(length));
    true
}

// Whether standard input is meant: an argument that is `-`, or that there is not.
pub fn is_standard_input(rt: &HostRuntime, argument: usize) -> bool
    ensures { NothingPromised }
{
    let mut word = [0u8; 16];
    match rt.arg(argument, &mut word) {
        Ok(n) => words::is_dash(&word[..n]),
        Err(FillError::NotPresent) => true,
        Err(FillError::TooLong) => false,
    }
}

// The number that an argument is, as lists and captures write numbers. None for an argument that is none, or is not there.
pub fn number_given(rt: &HostRuntime, argument: usize) -> Option<u16>
    ensures { NothingPromised }
{
    let mut word = [0u8; 4];
    let n = rt.arg(argument, &mut word).ok()?;
    text::decimal::number(&word[..n])
}

// Why an argument could not be had.
fn no_argument(why: FillError) -> io::Error {
    match why {
        FillError::NotPresent => io::Error::from_raw_os_error(NO_SUCH_ARGUMENT),
        FillError::TooLong => io::Error::from_raw_os_error(NAME_TOO_LONG),
    }
}

// The file of this path. std opens a file by text alone, so that a path that is none is refused as the system would refuse it where it takes no other.
fn open_path(rt: &HostRuntime, path: &[u8]) -> io::Result<File> {
    match str::from_utf8(path) {
        Ok(text) => File::open(rt, text),
        Err(_) => Err(io::Error::from_raw_os_error(NO_TEXT)),
    }
}

// The file that this argument names, and the title; none where it can't be opened, which has been said.
fn named_file<'a>(
    rt: &HostRuntime,
    program: &[u8],
    argument: usize,
    room: &'a mut [u8],
) -> Option<(Source, &'a [u8])>
    ensures { MatchOption result NothingPromised (λ found. length found.1.now ≤ length room.old) }
{
    // The longest path has 4,095 bytes.
    let mut path = [0u8; 4095];
    let n = match rt.arg(argument, &mut path) {
        Ok(n) => n,
        Err(why) => {
            let named = words::title(program, b"the file's name", room);
            say_error(rt, &room[..named], no_argument(why));
            return None;
        }
    };
    let named = words::title(program, &path[..n], room);
    let title = &room[..named];
    match open_path(rt, &path[..n]) {
        Ok(file) => Some((Source::File(file), title)),
        Err(error) => {
            say_error(rt, title, error);
            None
        }
    }
}

// The file that an argument names; standard input where there is no such argument or where it is `-`; and the title, what a message begins with that
// is about this input, in the room for it. None where it can't be opened, which has been said.
pub fn open_input<'a>(
    rt: &HostRuntime,
    program: &[u8],
    argument: usize,
    room: &'a mut [u8],
) -> Option<(Source, &'a [u8])>
    ensures { MatchOption result NothingPromised (λ found. length found.1.now ≤ length room.old) }
{
    if !is_standard_input(rt, argument) {
        return named_file(rt, program, argument, room);
    }
    let named = words::title(program, b"standard input", room);
    Some((Source::Standard(rt.stdin()), &room[..named]))
}

// Opens an input, and has `read` read it. `read` is told the title too. Where it can't be opened, nothing is read.
pub fn with_input<F: FnOnce(&mut Source, &[u8])>(
    rt: &HostRuntime,
    program: &[u8],
    argument: usize,
    read: F,
)
    requires { F.IsAlwaysCallable read }
    ensures { NothingPromised }
{
    let mut room = room::<65536>();
    if let Some((mut source, title)) = open_input(rt, program, argument, &mut room) {
        read(&mut source, title);
    }
}

// What a program does whose one argument names its input, and may be left out.
pub fn on_one_input<F: FnOnce(&mut Source, &[u8])>(
    rt: &HostRuntime,
    program: &[u8],
    usage: &[u8],
    read: F,
)
    requires { F.IsAlwaysCallable read }
    ensures { NothingPromised }
{
    if helped(rt, program, usage) {
        return;
    }
    if is_given(rt, 2) {
        wrong_call(rt, program, b"too many arguments", usage);
        return;
    }
    with_input(rt, program, 1, read);
}
