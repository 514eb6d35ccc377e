// What the host's call for a bus is made of: four records read from a host's words, and written back.
#![tactic(auto)]

ghost use Rattle.std.specs.Prelude.{◌&&◌, ◌≡◌, eqb};
ghost use Rattle.refusals.specs.Numbers.{number};
ghost use Rattle.registers.specs.State.{places};
ghost use Rattle.record_words.specs.Words.{stored};
ghost use Rattle.bus_refusals.specs.Four.{chip_at};
ghost use Rattle.bus_host.specs.Buffers.{four_read};
ghost use Rattle.bus_host.specs.BusCall.{no_record_for};

use bus_refusals::is_long;
use record_words::{read_record, write_record};
use refusals::Refusal;
use registers::Chip;

// Four records, or none where the words of one stand for none.
// kept (C interface): a host lends each buffer by itself
#[tactic(auto, unfolding(crate::specs::Buffers::four_read, record_words::specs::Words::read_of))]
pub fn read_four(
    record0: &[u64],
    record1: &[u64],
    record2: &[u64],
    record3: &[u64],
) -> Option<[Chip; 4]>
    ensures { result ≡ four_read record0.now record1.now record2.now record3.now }
{
    Some([
        read_record(record0)?,
        read_record(record1)?,
        read_record(record2)?,
        read_record(record3)?,
    ])
}

// Writes each record's words into its buffer.
pub fn write_four(
    chips: [Chip; 4],
    record0: &mut [u64],
    record1: &mut [u64],
    record2: &mut [u64],
    record3: &mut [u64],
)
    ensures record0_after { record0.new ≡ stored (chip_at chips 0) record0.old }
    ensures record1_after { record1.new ≡ stored (chip_at chips 1) record1.old }
    ensures record2_after { record2.new ≡ stored (chip_at chips 2) record2.old }
    ensures record3_after { record3.new ≡ stored (chip_at chips 3) record3.old }
{
    let [chip0, chip1, chip2, chip3] = chips;
    write_record(chip0, record0);
    write_record(chip1, record1);
    write_record(chip2, record2);
    write_record(chip3, record3);
}

// Why words that stand for no record are refused: another length of a memory comes first.
pub fn no_record(
    memory0_len: usize,
    writers0_len: usize,
    memory1_len: usize,
    writers1_len: usize,
    memory2_len: usize,
    writers2_len: usize,
    memory3_len: usize,
    writers3_len: usize,
) -> Refusal
    ensures { number result ≡ no_record_for ((eqb memory0_len places && eqb writers0_len places)
        && ((eqb memory1_len places && eqb writers1_len places)
        && ((eqb memory2_len places && eqb writers2_len places)
        && (eqb memory3_len places && eqb writers3_len places)))) }
{
    let long = is_long(memory0_len, writers0_len)
        & (is_long(memory1_len, writers1_len)
            & (is_long(memory2_len, writers2_len) & is_long(memory3_len, writers3_len)));
    if long {
        Refusal::Record
    } else {
        Refusal::MemoryLength
    }
}
