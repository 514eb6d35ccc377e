// The pixels that a byte shows, by value.
ghost use Rattle.std.specs.Prelude.{◌≡◌, ◌^◌, ◌≤◌, ◌<◌};
ghost use Rattle.registers.specs.Record.{by_value};
ghost use Rattle.pixel_counts.specs.Mending.{shown};
ghost use Rattle.pixel_counts.specs.Packed.{packed_at};

use registers::PixelCounts;

// What a pixel adds to a packed sum: four bits for each value. A shift, since a choice among four numbers may be compiled into a jump, which no processor
// foresees for the bytes of a picture.
fn one(value: u8) -> u16
    requires { value < 4 }
    ensures value { result ≡ 16 ^ value }
    ensures upper_bound { result ≤ 4096 }
{
    1u16 << (4 * value)
}

// Four rows to a bank, and three to bank 16, which begins at place 1,616.
fn packed(place: usize, byte: u8) -> u16
    ensures { result ≡ packed_at place byte }
{
    let three = one(byte % 4) + one(byte / 4 % 4) + one(byte / 16 % 4);
    if place < 1616 {
        return three + one(byte / 64);
    }
    three
}

// How many pixels of each value a byte at this place shows on the glass: one sum for all four.
pub fn shown(place: usize, byte: u8) -> PixelCounts
    ensures { result ≡ by_value (λ v. shown v place byte) }
{
    let sum = packed(place, byte);
    PixelCounts {
        zeros: sum % 16,
        ones: sum / 16 % 16,
        twos: sum / 256 % 16,
        threes: sum / 4096,
    }
}
