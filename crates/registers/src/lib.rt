// The chip's record as plain data: registers, bus phase and the rest, their limits and reset values, and the row methods.
#![tactic(auto)]

ghost use Rattle.std.specs.Prelude.{◌≡◌};
ghost use Rattle.registers.specs.Record.{phase_rs, reset_chip, allowed_registers, allowed_counts, allowed, in_phase, with_registers, with_pixels};

mod bytes;
pub mod entry;
pub mod limits;
pub mod names;
pub mod refusal;
pub mod reversed;
pub mod rows;

// The registers of the data sheet's bit table, in document 01's order. H is the command page.
#[derive(Clone, Copy, Debug, PartialEq, Eq, Hash)]
pub struct Registers {
    pub h: u8,
    pub data_order: u8,
    pub pd: u8,
    pub v: u8,
    pub d: u8,
    pub e: u8,
    pub mx: u8,
    pub my: u8,
    pub ps: u8,
    pub x: u8,
    pub y: u8,
    pub bs: u8,
    pub bsh: u8,
    pub dp: u8,
    pub prs: u8,
    pub hve: u8,
    pub s: u8,
    pub tc: u8,
    pub sm: u8,
    pub vop: u8,
    pub gr: u8,
    pub gs0: u8,
    pub gs1: u8,
    pub gs2: u8,
    pub gs3: u8,
    pub dof: u8,
    pub dm: u8,
    pub ec: u8,
    pub oc: u8,
}

// Where the bus stands. `true` is RS 1, display data; `false` is RS 0, a command.
#[derive(Clone, Copy, Debug, PartialEq, Eq, Hash)]
pub enum Phase {
    Idle,
    AddressAwaited,
    Ignoring,
    ControlAwaited,
    OneByte(bool),
    EndlessBytes(bool),
    Reading,
    ReadEnded,
}

// How many pixels of the glass have the value 0, 1, 2 and 3.
#[derive(Clone, Copy, Debug, PartialEq, Eq, Hash)]
pub struct PixelCounts {
    pub zeros: u16,
    pub ones: u16,
    pub twos: u16,
    pub threes: u16,
}

// The chip's record: the registers, the pins SA, the status byte TR, the last RS, the bus phase and the pixels by value. The event count is the bus's
// and stands beside it.
#[derive(Clone, Copy, Debug, PartialEq, Eq, Hash)]
pub struct Chip {
    pub registers: Registers,
    pub pins: u8,
    pub status: u8,
    pub last_rs: bool,
    pub phase: Phase,
    pub pixels: PixelCounts,
}

impl Registers {
    // Every field within its limit. `&` and not `&&`: one value, no branches.
    pub fn allowed(self) -> bool
        ensures { result ≡ allowed_registers self }
    {
        (self.h <= 4)
            & (self.data_order <= 1)
            & (self.pd <= 1)
            & (self.v <= 1)
            & (self.d <= 1)
            & (self.e <= 1)
            & (self.mx <= 1)
            & (self.my <= 1)
            & (self.ps <= 1)
            & (self.x <= 100)
            & (self.y <= 16)
            & (self.bs <= 7)
            & (self.bsh <= 1)
            & (self.dp <= 7)
            & (self.prs <= 1)
            & (self.hve <= 1)
            & (self.s <= 7)
            & (self.tc <= 7)
            & (self.sm <= 1)
            & (self.vop <= 127)
            & (self.gr <= 3)
            & (self.gs0 <= 63)
            & (self.gs1 <= 63)
            & (self.gs2 <= 63)
            & (self.gs3 <= 63)
            & (self.dof <= 1)
            & (self.dm <= 1)
            & (self.ec <= 1)
            & (self.oc <= 1)
    }
}

impl Phase {
    // The RS of the byte or bytes awaited; a phase that awaits none has 0.
    pub fn rs(self) -> bool
        ensures { result ≡ phase_rs self }
    {
        match self {
            Phase::OneByte(rs) | Phase::EndlessBytes(rs) => rs,
            _ => false,
        }
    }
}

impl PixelCounts {
    // No more than the glass has pixels.
    pub fn allowed(self) -> bool
        ensures { result ≡ allowed_counts self }
    {
        (self.zeros <= 6767) & (self.ones <= 6767) & (self.twos <= 6767) & (self.threes <= 6767)
    }
}

impl Chip {
    // The record after power-on reset, for a memory that is cleared.
    pub fn reset(pins: u8) -> Self
        ensures { result ≡ reset_chip pins }
    {
        Self {
            registers: Registers::reset(),
            pins,
            status: 0,
            last_rs: false,
            phase: Phase::Idle,
            pixels: PixelCounts {
                zeros: 6767,
                ones: 0,
                twos: 0,
                threes: 0,
            },
        }
    }

    // Every register within its limit, pins that two wires can have, and no count above that of all pixels.
    pub fn allowed(self) -> bool
        ensures { result ≡ allowed self }
    {
        self.registers.allowed() & (self.pins <= 3) & self.pixels.allowed()
    }

    // The same record in another phase.
    pub fn in_phase(self, phase: Phase) -> Self
        ensures { result ≡ in_phase self phase }
    {
        Self { phase, ..self }
    }

    // The same record with other registers.
    pub fn with_registers(self, registers: Registers) -> Self
        ensures { result ≡ with_registers self registers }
    {
        Self { registers, ..self }
    }

    // The same record with other counts of pixels.
    pub fn with_pixels(self, pixels: PixelCounts) -> Self
        ensures { result ≡ with_pixels self pixels }
    {
        Self { pixels, ..self }
    }
}
