// Bytes as text, read: searching, fields parted by a separator, numbers. Drawing lists and captures are read with it.
#![tactic(auto)]

pub mod decimal;
pub mod pieces;
pub mod search;
