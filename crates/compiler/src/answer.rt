// What compiling gives, and document 01's numbers for it.
ghost use Rattle.std.specs.Prelude.{◌≡◌};
ghost use Rattle.compiler.specs.declared.answer.CompileError.TheVariants.{BadLine};
ghost use Rattle.compiler.specs.Answer.{told};
ghost use Rattle.compiler.specs.Compile.{numbers_of};

use refusals::Refusal;

// How many events were written, and the bus clocks that they take, nine for each byte.
#[derive(Clone, Copy, Debug, PartialEq, Eq)]
pub struct Compiled {
    pub length: usize,
    pub clocks: usize,
}

// Why none were. A line is given by its number from 1.
#[derive(Clone, Copy, Debug, PartialEq, Eq)]
pub enum CompileError {
    Refused(Refusal),
    BadLine { refusal: Refusal, line: usize },
    Short { needed: usize },
}

// The first line that is refused, by its number from 1.
#[derive(Clone, Copy, Debug, PartialEq, Eq)]
pub struct Fault {
    pub refusal: Refusal,
    pub line: usize,
}

impl From<Fault> for CompileError {
    ghost from_gives = { λ f e. e ≡ BadLine f.refusal f.line };

    fn from(fault: Fault) -> Self {
        CompileError::BadLine {
            refusal: fault.refusal,
            line: fault.line,
        }
    }
}

// The number given back and the three beside it. Those that an answer does not name are 0.
#[derive(Clone, Copy, Debug, PartialEq, Eq)]
pub struct Numbers {
    pub number: u64,
    pub length: u64,
    pub clocks: u64,
    pub line: u64,
}

const ZEROS: Numbers = Numbers {
    number: 0,
    length: 0,
    clocks: 0,
    line: 0,
};

impl Numbers {
    pub fn of(answer: Result<Compiled, CompileError>) -> Self
        ensures { result ≡ numbers_of (told answer) }
    {
        match answer {
            Ok(compiled) => Numbers {
                length: compiled.length as u64,
                clocks: compiled.clocks as u64,
                ..ZEROS
            },
            Err(CompileError::Refused(refusal)) => Numbers {
                number: u64::from(refusal.number()),
                ..ZEROS
            },
            Err(CompileError::BadLine { refusal, line }) => Numbers {
                number: u64::from(refusal.number()),
                line: line as u64,
                ..ZEROS
            },
            Err(CompileError::Short { needed }) => Numbers {
                number: u64::from(Refusal::ShortOutput.number()),
                length: needed as u64,
                ..ZEROS
            },
        }
    }
}
