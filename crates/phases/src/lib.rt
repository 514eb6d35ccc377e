// The chip's bus interface: its phases, which comes after each byte and read; and what a control byte, a read, a reset pulse and a sensor reading come to.
#![tactic(auto)]

pub mod byte;
pub mod interface;
pub mod other;
