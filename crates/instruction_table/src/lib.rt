// The instruction table as data, and the byte by which a row says what the registers hold.

#![tactic(auto)]

pub mod encoding;
pub mod table;
