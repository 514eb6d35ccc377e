// The host's call for a counting start.
ghost use Rattle.std.specs.Prelude.{◌≡◌};
ghost use Rattle.host.specs.Counting.{counts, counts_call};

// How many pixels have each value in this display memory. The four numbers are set in every case.
#[tactic(auto, unfolding(crate::specs::Counting::counts_call))]
pub fn pcf8820_counts(memory: &[u8], n0: &mut u64, n1: &mut u64, n2: &mut u64, n3: &mut u64) -> u64
    ensures { counts result n0.new n1.new n2.new n3.new ≡ counts_call memory.now }
{
    match pixel_counts::start(memory) {
        Ok(pixels) => {
            *n0 = u64::from(pixels.zeros);
            *n1 = u64::from(pixels.ones);
            *n2 = u64::from(pixels.twos);
            *n3 = u64::from(pixels.threes);
            0
        }
        Err(refusal) => {
            *n0 = 0;
            *n1 = 0;
            *n2 = 0;
            *n3 = 0;
            u64::from(refusal.number())
        }
    }
}
