// A wire state as words, both ways across.
ghost use Rattle.std.specs.Prelude.{◌≡◌, length};
ghost use Rattle.wire_words.specs.Words.{words_of, read_of};

use crate::stage;
use wire_samples::Wires;

// Unclear samples so far, the last sample, the stage, how many bits of the present byte are taken, and their value.
pub const WORDS: usize = 5;

// The wires that the words stand for: as many words as a wire state has, each within its range. They are compared whole: a word that is cut to a byte
// first may pass for another.
#[tactic(auto, unfolding(crate::specs::Words::read_of, crate::specs::Words::stands_for, crate::specs::Words::wires_of))]
pub fn read_state(words: &[u64]) -> Option<Wires>
    ensures { result ≡ read_of words.now }
{
    match *words {
        [
            unclear,
            last @ 0..=3,
            stage @ 0..=4,
            bits @ 0..=8,
            value @ 0..=255,
        ] => Some(Wires {
            unclear,
            last: last as u8,
            stage: stage::of(stage),
            bits: bits as u8,
            value: value as u8,
        }),
        _ => None,
    }
}

pub fn write_state(wires: Wires, words: &mut [u64])
    requires { length words.old ≡ 5 }
    ensures { words.new ≡ words_of wires }
{
    words.copy_from_slice(&[
        wires.unclear,
        u64::from(wires.last),
        stage::number(wires.stage),
        u64::from(wires.bits),
        u64::from(wires.value),
    ]);
}
