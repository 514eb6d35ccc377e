// Searching and comparing bytes.
ghost use Rattle.std.specs.Prelude.{◌≡◌};
ghost use Rattle.text.specs.Text.{find_of, count_of, same_bytes};

// The first place at or after `from` where the byte stands; else the length, also where `from` lies past the end.
pub fn find(s: &[u8], from: usize, byte: u8) -> usize
    ensures { result ≡ find_of s.now from byte }
{
    let behind = s.get(from..).unwrap_or(&[]);
    match behind.iter().position(|b| *b == byte) {
        Some(passed) => from + passed,
        None => s.len(),
    }
}

// How many bytes equal `byte`.
#[tactic(auto, using(crate::proofs::Chains::count_by_lem))]
pub fn count(s: &[u8], byte: u8) -> usize
    ensures { result ≡ count_of byte s.now }
{
    s.iter().filter(|b| **b == byte).count()
}

// Whether both hold the same bytes.
pub fn equal(a: &[u8], b: &[u8]) -> bool
    ensures { result ≡ same_bytes a.now b.now }
{
    a == b
}
