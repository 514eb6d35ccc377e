// The call for four chips on one bus.
ghost use Rattle.std.specs.Prelude.{◌≡◌};
ghost use Rattle.bus_host.specs.Buffers.{four_lent};
ghost use Rattle.bus_host.specs.BusCall.{called, bus_call};

#[unsafe(no_mangle)]
pub extern "C" fn pcf8820_bus_step(
    record0: &mut [u64],
    memory0: &mut [u8],
    writers0: &mut [u64],
    record1: &mut [u64],
    memory1: &mut [u8],
    writers1: &mut [u64],
    record2: &mut [u64],
    memory2: &mut [u8],
    writers2: &mut [u64],
    record3: &mut [u64],
    memory3: &mut [u8],
    writers3: &mut [u64],
    count: &mut u64,
    event: u16,
    pins: u64,
) -> u64
    ensures { called result (four_lent
        record0.new memory0.new writers0.new
        record1.new memory1.new writers1.new
        record2.new memory2.new writers2.new
        record3.new memory3.new writers3.new) count.new
        ≡ bus_call event pins (four_lent
        record0.old memory0.old writers0.old
        record1.old memory1.old writers1.old
        record2.old memory2.old writers2.old
        record3.old memory3.old writers3.old) count.old }
{
    host::bus_call::pcf8820_bus_step(
        record0, memory0, writers0, record1, memory1, writers1, record2, memory2, writers2,
        record3, memory3, writers3, count, event, pins,
    )
}
