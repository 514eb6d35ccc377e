// The inside of the chip: what an event does, and a run of events. Other crates go by what `chip` promises of it.
#![tactic(auto)]

pub mod answer;
pub mod answering;
pub mod event;
pub mod fitting;
mod other;
pub mod past_entry;
mod refusal;
pub mod run;
mod sequence;
pub mod step;
