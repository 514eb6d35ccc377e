// The host's call for four chips on one bus.
ghost use Rattle.std.specs.Prelude.{◌≡◌};
ghost use Rattle.bus_host.specs.Buffers.{four_lent};
ghost use Rattle.bus_host.specs.BusCall.{called, bus_call};

// One event of the bus. A refused one leaves all buffers and the count as they are.
pub fn pcf8820_bus_step(
    record0: &mut [u64],
    memory0: &mut [u8],
    writers0: &mut [u64],
    record1: &mut [u64],
    memory1: &mut [u8],
    writers1: &mut [u64],
    record2: &mut [u64],
    memory2: &mut [u8],
    writers2: &mut [u64],
    record3: &mut [u64],
    memory3: &mut [u8],
    writers3: &mut [u64],
    count: &mut u64,
    event: u16,
    pins: u64,
) -> u64
    ensures { called result (four_lent
        record0.new memory0.new writers0.new
        record1.new memory1.new writers1.new
        record2.new memory2.new writers2.new
        record3.new memory3.new writers3.new) count.new
        ≡ bus_call event pins (four_lent
        record0.old memory0.old writers0.old
        record1.old memory1.old writers1.old
        record2.old memory2.old writers2.old
        record3.old memory3.old writers3.old) count.old }
{
    let Some(chips) = bus_host::read_four(record0, record1, record2, record3) else {
        let refusal = bus_host::no_record(
            memory0.len(),
            writers0.len(),
            memory1.len(),
            writers1.len(),
            memory2.len(),
            writers2.len(),
            memory3.len(),
            writers3.len(),
        );
        return u64::from(refusal.number());
    };
    let before = *count;
    let stepped = bus_step::step(
        event, pins, chips, before, memory0, writers0, memory1, writers1, memory2, writers2,
        memory3, writers3,
    );
    let after = stepped.count;
    *count = after;
    bus_host::write_four(stepped.chips, record0, record1, record2, record3);
    engine::answer::number(stepped.answer)
}
