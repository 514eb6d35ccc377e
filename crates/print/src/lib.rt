// Text printed into a buffer: bytes, and numbers in decimal. What the buffer has places for is stored, and the place after all of the bytes is kept, so
// that one above the length shows that there was no room, and how much is needed.
#![tactic(auto)]

ghost use Rattle.std.specs.Prelude.{[], ◌∷◌, ◌++◌, ◌≡◌, ◌+◌, ◌≤◌, List, ℕ, length};
ghost use Rattle.print.specs.Chosen.{named_line};
ghost use Rattle.print.specs.Printed.{decimal_of, place_after, top, Wrote, written_number, written_length, output, whole_text};
ghost use Rattle.print.specs.declared.Unprinted.TheVariants as unprinted;
ghost use Rattle.print.specs.Prints.{Prints, AlwaysPrints, written_of};

use refusals::Refusal;

// A buffer that text is printed into, and the place after what was printed. The buffer takes what it has places for; the place goes on.
#[derive(Drop)]
pub struct Printout<'a> {
    pub out: &'a mut [u8],
    pub at: usize,
}

impl<'a> Printout<'a> {
    // One byte. The place stays once it is the largest number of all, which is no place of a buffer.
    pub fn byte(&mut self, b: u8)
        ensures { Prints self.old (b ∷ []) self.new }
    {
        if self.at < self.out.len() {
            self.out[self.at] = b;
        }
        self.at = self.at.saturating_add(1);
    }

    // All of these bytes.
    pub fn bytes(&mut self, s: &[u8])
        ensures { Prints self.old s.now self.new }
    {
        for b in s {
            self.byte(*b);
        }
    }

    // The number n in decimal: the digits of n / 10, then the last one.
    pub fn decimal(&mut self, n: u64)
        ensures { Prints self.old (decimal_of n) self.new }
    {
        if n < 10 {
            self.byte(48 + n as u8);
        } else {
            self.decimal(n / 10);
            self.byte(48 + (n % 10) as u8);
        }
    }

    // The number n, and the byte that parts it from what follows.
    pub fn field(&mut self, n: u64, end: u8)
        ensures { Prints self.old (decimal_of n ++ end ∷ []) self.new }
    {
        self.decimal(n);
        self.byte(end);
    }

    // A line: a name, a tab and a number.
    pub fn named_line(&mut self, name: &[u8], n: u64)
        ensures { Prints self.old (named_line name.now n) self.new }
    {
        self.bytes(name);
        self.byte(b'\t');
        self.field(n, b'\n');
    }

    // The sum n + k in decimal, also where no machine word holds it: k is carried into the tens first.
    pub fn decimal_plus(&mut self, n: u64, k: u8)
        ensures { Prints self.old (decimal_of (n + k)) self.new }
    {
        let units = n % 10 + u64::from(k);
        let tens = n / 10 + units / 10;
        if tens == 0 {
            self.byte(48 + units as u8);
        } else {
            self.decimal(tens);
            self.byte(48 + (units % 10) as u8);
        }
    }
}

// Why a whole text was not printed: the output is shorter than the length that is needed, or there is no such text.
#[derive(Clone, Copy, Debug, PartialEq, Eq, Hash)]
pub enum Unprinted {
    Short { needed: usize },
    Refused(Refusal),
}

// The number of a whole text's printing: `short` where the output is too short, which each kind of text numbers for itself; 0 where it was printed.
pub fn number_of(printed: Result<usize, Unprinted>, short: u8) -> u8
    ensures { result ≡ written_number short (written_of printed) }
{
    match printed {
        Ok(_) => 0,
        Err(Unprinted::Short { needed: _ }) => short,
        Err(Unprinted::Refused(refusal)) => refusal.number(),
    }
}

// The length of the text that was printed or would need to be.
pub fn length_of(printed: Result<usize, Unprinted>) -> usize
    ensures { result ≡ written_length (written_of printed) }
{
    match printed {
        Ok(n) => n,
        Err(Unprinted::Short { needed }) => needed,
        Err(Unprinted::Refused(_)) => 0,
    }
}

impl From<Refusal> for Unprinted {
    ghost from_gives = { λ refusal e. e ≡ unprinted.Refused refusal };

    fn from(refusal: Refusal) -> Unprinted {
        Unprinted::Refused(refusal)
    }
}

// The whole text that `write` prints, from the start of `out` on. It is printed twice: into no buffer, which tells its length, and then into `out` if
// there is room.
pub fn whole<F: Fn(&mut Printout)>(write: F, out: &mut [u8]) -> Result<usize, Unprinted>
    requires { F.IsAlwaysCallable write }
    ensures { (text : List ℕ) → length text ≤ top → AlwaysPrints (F.post write) text
        → output (written_of result) out.new ≡ whole_text 0 text out.old }
{
    let mut none = [0u8; 0];
    let mut measured = Printout {
        out: &mut none,
        at: 0,
    };
    write(&mut measured);
    let needed = measured.at;
    if out.len() < needed {
        return Err(Unprinted::Short { needed });
    }
    let mut printed = Printout { out, at: 0 };
    write(&mut printed);
    Ok(printed.at)
}
