// Which channel the dosing computers move to: judged by how often the tablets hop to each.
#![tactic(auto)]

mod channel_judge;
mod loads;

pub use channel_judge::{channel_load, judge, own_proposal};
