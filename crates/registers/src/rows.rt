// The command rows of the data sheet's Table 2: each takes the registers and hands them back, changing only its own fields.
// NOP and row block swapping have no such field: their methods hand the registers back as they are.
ghost use Rattle.std.specs.Prelude.{◌≡◌};
ghost use Rattle.registers.specs.Table.{taken, nop, page_return, instruction_set, select_function, set_y, set_x};
ghost use Rattle.registers.specs.Table.{display_control, external_display_control, bias_system, bias_system_half, display_part};
ghost use Rattle.registers.specs.Table.{generator_control, generator_configuration, temperature_control, temperature_measurement, vlcd_control};
ghost use Rattle.registers.specs.Table.{grey_register, grey_level, display_off, oscillator_setting, row_block_swapping};

use crate::Registers;

impl Registers {
    // In any page: 00000000.
    pub fn no_operation(self) -> Self
        ensures { result ≡ taken nop.parts 0 self }
    {
        self
    }

    // In any page: 00000001.
    pub fn page_return(mut self) -> Self
        ensures { result ≡ taken page_return.parts 1 self }
    {
        self.h = 0;
        self
    }

    // Page 0: 00001 H2 H1 H0. There is no page above 4.
    pub fn instruction_set(mut self, byte: u8) -> Self
        ensures { result ≡ taken instruction_set.parts byte self }
    {
        let page = byte % 8;
        if page <= 4 {
            self.h = page;
        }
        self
    }

    // Page 0: 0001 DO PD V 0.
    pub fn select_function(mut self, byte: u8) -> Self
        ensures { result ≡ taken select_function.parts byte self }
    {
        self.data_order = byte / 8 % 2;
        self.pd = byte / 4 % 2;
        self.v = byte / 2 % 2;
        self
    }

    // Page 0: 010 Y4 .. Y0. There is no bank above 16.
    pub fn set_y(mut self, byte: u8) -> Self
        ensures { result ≡ taken set_y.parts byte self }
    {
        let bank = byte % 32;
        if bank <= 16 {
            self.y = bank;
        }
        self
    }

    // Page 0: 1 X6 .. X0. There is no column above 100.
    pub fn set_x(mut self, byte: u8) -> Self
        ensures { result ≡ taken set_x.parts byte self }
    {
        let column = byte % 128;
        if column <= 100 {
            self.x = column;
        }
        self
    }

    // Page 1: 000001 D E.
    pub fn display_control(mut self, byte: u8) -> Self
        ensures { result ≡ taken display_control.parts byte self }
    {
        self.d = byte / 2 % 2;
        self.e = byte % 2;
        self
    }

    // Page 1: 00001 MX MY PS.
    pub fn external_display_control(mut self, byte: u8) -> Self
        ensures { result ≡ taken external_display_control.parts byte self }
    {
        self.mx = byte / 4 % 2;
        self.my = byte / 2 % 2;
        self.ps = byte % 2;
        self
    }

    // Page 1: 00010 BS2 BS1 BS0.
    pub fn bias_system(mut self, byte: u8) -> Self
        ensures { result ≡ taken bias_system.parts byte self }
    {
        self.bs = byte % 8;
        self
    }

    // Page 1: 0011100 BS-half.
    pub fn bias_system_half(mut self, byte: u8) -> Self
        ensures { result ≡ taken bias_system_half.parts byte self }
    {
        self.bsh = byte % 2;
        self
    }

    // Page 1: 01000 DP2 DP1 DP0.
    pub fn display_part(mut self, byte: u8) -> Self
        ensures { result ≡ taken display_part.parts byte self }
    {
        self.dp = byte % 8;
        self
    }

    // Page 2: 000001 PRS HVE.
    pub fn generator_control(mut self, byte: u8) -> Self
        ensures { result ≡ taken generator_control.parts byte self }
    {
        self.prs = byte / 2 % 2;
        self.hve = byte % 2;
        self
    }

    // Page 2: 00001 S2 S1 S0.
    pub fn generator_configuration(mut self, byte: u8) -> Self
        ensures { result ≡ taken generator_configuration.parts byte self }
    {
        self.s = byte % 8;
        self
    }

    // Page 2: 00010 TC2 TC1 TC0.
    pub fn temperature_control(mut self, byte: u8) -> Self
        ensures { result ≡ taken temperature_control.parts byte self }
    {
        self.tc = byte % 8;
        self
    }

    // Page 2: 0010000 SM.
    pub fn temperature_measurement(mut self, byte: u8) -> Self
        ensures { result ≡ taken temperature_measurement.parts byte self }
    {
        self.sm = byte % 2;
        self
    }

    // Page 2: 1 VOP6 .. VOP0.
    pub fn vlcd_control(mut self, byte: u8) -> Self
        ensures { result ≡ taken vlcd_control.parts byte self }
    {
        self.vop = byte % 128;
        self
    }

    // Page 3: 010000 GR1 GR0.
    pub fn grey_register(mut self, byte: u8) -> Self
        ensures { result ≡ taken grey_register.parts byte self }
    {
        self.gr = byte % 4;
        self
    }

    // Page 3: 10 GS5 .. GS0, for the register that GR selects.
    pub fn grey_level(mut self, byte: u8) -> Self
        ensures { result ≡ taken grey_level.parts byte self }
    {
        let level = byte % 64;
        match self.gr % 4 {
            0 => self.gs0 = level,
            1 => self.gs1 = level,
            2 => self.gs2 = level,
            _ => self.gs3 = level,
        }
        self
    }

    // Page 4: 000001 DOF DM.
    pub fn display_off(mut self, byte: u8) -> Self
        ensures { result ≡ taken display_off.parts byte self }
    {
        self.dof = byte / 2 % 2;
        self.dm = byte % 2;
        self
    }

    // Page 4: 000010 EC OC.
    pub fn oscillator_setting(mut self, byte: u8) -> Self
        ensures { result ≡ taken oscillator_setting.parts byte self }
    {
        self.ec = byte / 2 % 2;
        self.oc = byte % 2;
        self
    }

    // Page 4: 010 TRS BRS 000. The record holds neither bit.
    pub fn row_block_swapping(self, byte: u8) -> Self
        ensures { result ≡ taken row_block_swapping.parts byte self }
    {
        self
    }
}
