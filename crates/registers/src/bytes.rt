// The registers by their places in the record's order: all of them as bytes, and one set alone.
ghost use Rattle.std.specs.Prelude.{◌≡◌};
ghost use Rattle.registers.specs.Record.{values, of_values, put};

use crate::Registers;

impl Registers {
    pub fn bytes(self) -> [u8; 29]
        ensures { result ≡ values self }
    {
        [
            self.h,
            self.data_order,
            self.pd,
            self.v,
            self.d,
            self.e,
            self.mx,
            self.my,
            self.ps,
            self.x,
            self.y,
            self.bs,
            self.bsh,
            self.dp,
            self.prs,
            self.hve,
            self.s,
            self.tc,
            self.sm,
            self.vop,
            self.gr,
            self.gs0,
            self.gs1,
            self.gs2,
            self.gs3,
            self.dof,
            self.dm,
            self.ec,
            self.oc,
        ]
    }

    pub fn of_bytes(b: [u8; 29]) -> Self
        ensures { result ≡ of_values b }
    {
        Self {
            h: b[0],
            data_order: b[1],
            pd: b[2],
            v: b[3],
            d: b[4],
            e: b[5],
            mx: b[6],
            my: b[7],
            ps: b[8],
            x: b[9],
            y: b[10],
            bs: b[11],
            bsh: b[12],
            dp: b[13],
            prs: b[14],
            hve: b[15],
            s: b[16],
            tc: b[17],
            sm: b[18],
            vop: b[19],
            gr: b[20],
            gs0: b[21],
            gs1: b[22],
            gs2: b[23],
            gs3: b[24],
            dof: b[25],
            dm: b[26],
            ec: b[27],
            oc: b[28],
        }
    }

    // The register at that place becomes the value, and the others stay; past the last place nothing changes.
    pub fn with(self, place: usize, value: u8) -> Self
        ensures { result ≡ put place value self }
    {
        if 29 <= place {
            return self;
        }
        let mut b = self.bytes();
        b[place] = value;
        Self::of_bytes(b)
    }
}
