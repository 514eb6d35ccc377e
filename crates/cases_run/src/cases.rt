// The worked cases: what each one shows, and its events. Bytes in hex, as the bus carries them.

const START: u16 = 256;

const STOP: u16 = 257;

// Byte 167 to column 5, bank 2.
pub const PUT_5_2_167: [u16; 11] = [
    START, 0x78, 0x80, 0x01, 0x80, 0x85, 0x80, 0x42, 0x40, 0xa7, STOP,
];

// X 100 is taken.
pub const X_E4: [u16; 7] = [START, 0x78, 0x80, 0x01, 0x80, 0xe4, STOP];

// X 5, then 101, which is no column: X is kept.
pub const X_E5: [u16; 9] = [START, 0x78, 0x80, 0x01, 0x80, 0x85, 0x80, 0xe5, STOP];

// Along a bank from X 100, Y 3: to 0, 4.
pub const COUNTER_V0_100_3: [u16; 11] = [
    START, 0x78, 0x80, 0x01, 0x80, 0xe4, 0x80, 0x43, 0x40, 0x11, STOP,
];

// Along a column from X 7, Y 16: to 8, 0.
pub const COUNTER_V1_7_16: [u16; 13] = [
    START, 0x78, 0x80, 0x01, 0x80, 0x16, 0x80, 0x87, 0x80, 0x50, 0x40, 0x22, STOP,
];

// The last place, along a bank: to 0, 0.
pub const COUNTER_V0_100_16: [u16; 11] = [
    START, 0x78, 0x80, 0x01, 0x80, 0xe4, 0x80, 0x50, 0x40, 0x15, STOP,
];

// The last place, along a column: to 0, 0.
pub const COUNTER_V1_100_16: [u16; 13] = [
    START, 0x78, 0x80, 0x01, 0x80, 0x16, 0x80, 0xe4, 0x80, 0x50, 0x40, 0x15, STOP,
];

// Bank 16 keeps six bits.
pub const BANK_16_FF: [u16; 7] = [START, 0x78, 0x80, 0x50, 0x40, 0xff, STOP];

// With DO = 1 the swap comes first: 03h leaves nothing in bank 16, C0h leaves 03h.
pub const BANK_16_SWAPPED: [u16; 10] = [
    START, 0x78, 0x80, 0x1c, 0x80, 0x50, 0x40, 0x03, 0xc0, STOP,
];

// With MX = 1, X 5 is column 95, and the next byte goes to its left.
pub const MIRROR_X: [u16; 14] = [
    START, 0x78, 0x80, 0x09, 0x80, 0x0c, 0x80, 0x01, 0x80, 0x85, 0x40, 0xa7, 0xa8, STOP,
];

// SM = 1 and PD = 0: the reading 88 is taken and read; the second read ends it, the third finds no read.
pub const SENSOR: [u16; 16] = [
    START, 0x78, 0x80, 0x10, 0x80, 0x0a, 0x80, 0x21, STOP, 600, START, 0x79, 258, 259, 259, STOP,
];

// PD = 1: no reading is taken.
pub const SENSOR_IN_POWER_DOWN: [u16; 12] = [
    START, 0x78, 0x80, 0x0a, 0x80, 0x21, STOP, 600, START, 0x79, 259, STOP,
];

// After RS 1 a read gives 255.
pub const READ_RS_1: [u16; 9] = [START, 0x78, 0x40, 0x55, START, 0x79, 258, 259, STOP];

// The address of pins 1, to a chip with pins 0: the whole transmission is ignored.
pub const OTHER_ADDRESS: [u16; 5] = [START, 0x7a, 0x80, 0x01, STOP];

// The same address, to a chip with pins 1.
pub const ADDRESS_PINS_1: [u16; 5] = [START, 0x7a, 0x80, 0x85, STOP];

// A reset pulse keeps both memories; the byte after it finds the bus idle.
pub const RESET_KEEPS_MEMORY: [u16; 7] = [START, 0x78, 0x40, 0xa7, 260, 0x00, STOP];

// 261 is no event: the run stops there, and what came before stands.
pub const REFUSED_EVENT: [u16; 7] = [START, 0x78, 0x40, 0x11, 261, 0x22, STOP];

// Co = 0, RS = 0: commands until STOP.
pub const ENDLESS_COMMANDS: [u16; 8] = [START, 0x78, 0x00, 0x09, 0x06, 0x01, 0x85, STOP];

// Co = 1, RS = 1: one display byte, then a control byte again.
pub const SINGLE_DATA_BYTES: [u16; 11] = [
    START, 0x78, 0xc0, 0x11, 0xc0, 0x22, 0x80, 0x01, 0x40, 0x33, STOP,
];

// A byte from the master ends a read.
pub const BYTE_WHILE_READING: [u16; 6] = [START, 0x79, 0x33, 258, 0x44, STOP];

// Bytes of no row in page 0 and in page 4, page 5 and Y 17: acknowledged, nothing else. Page 4 and page return, which are among them, are taken.
pub const UNKNOWN_COMMANDS: [u16; 17] = [
    START, 0x78, 0x80, 0x02, 0x80, 0x20, 0x80, 0x0d, 0x80, 0x51, 0x80, 0x0c, 0x80, 0xff, 0x80,
    0x01, STOP,
];

// X 101, a byte of no row, NOP and X 100, each after its control byte; then X 100 again, Y 17, Y 3, page 5 and page return on end; and E5h as a
// display byte.
pub const TAKEN_UNKNOWN_OUT_OF_RANGE: [u16; 21] = [
    START, 0x78, 0x80, 0xe5, 0x80, 0x02, 0x80, 0x00, 0x80, 0xe4, 0x00, 0xe4, 0x51, 0x43, 0x0d,
    0x01, START, 0x78, 0x40, 0xe5, STOP,
];

// GR selects register 1 and then 3, each gets its level.
pub const GREY_LEVELS: [u16; 13] = [
    START, 0x78, 0x80, 0x0b, 0x80, 0x41, 0x80, 0x94, 0x80, 0x43, 0x80, 0xbf, STOP,
];

// Page 4: rows that change nothing.
pub const ROW_BLOCK_SWAPPING: [u16; 11] = [
    START, 0x78, 0x80, 0x0c, 0x80, 0x58, 0x80, 0x00, 0x80, 0x01, STOP,
];

// Display on, each value in its own register, 1, 2 and 3 at 17, 30 and 63; then A7h to column 5, bank 2, whose rows use registers 3, 1, 2, 2.
pub const PULSES_17_30_63: [u16; 25] = [
    START, 0x78, 0x00, 0x10, 0x09, 0x06, 0x01, 0x0c, 0x04, 0x01, 0x0b, 0x41, 0x91, 0x42, 0x9e,
    0x43, 0xbf, 0x01, 0x85, 0x42, START, 0x78, 0x40, 0xa7, STOP,
];
