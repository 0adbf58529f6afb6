// The calls for C: each is the call of its name in `exports`, with its clauses, under the name that C links.
#![tactic(auto)]

mod channel_sequence_calls;
mod data_path_calls;
mod frame_calls;
mod item_calls;
mod judge_calls;
mod search_calls;
mod sequence_calls;
mod synchronization_calls;
