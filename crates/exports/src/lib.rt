// The calls for other languages, flat: numbers, lent slices, and a record as a lent array of numbers. A call answers 0 or the
// number of its refusal, but for the gap, the step and the searches, which refuse nothing; it sets every place that was lent to
// it for an answer. What is asked often is read straight into the numbers, and written straight from them; everything else is
// asked of the crates below. Each record has calls of its own with C's names, so that some are alike but for the record.
#![tactic(auto)]

mod channel_sequence_calls;
mod data_path_calls;
mod data_path_reading;
mod data_path_record;
mod data_path_values;
mod frame_calls;
mod item_calls;
mod judge_calls;
mod lent;
mod numbers;
mod search_calls;
mod sequence_calls;
mod synchronization_calls;
mod told;

pub use channel_sequence_calls::{
    awdl_channel_sequence_consistent, awdl_channel_sequence_read, awdl_channel_sequence_size,
    awdl_channel_sequence_write,
};
pub use data_path_calls::{
    awdl_data_path_consistent, awdl_data_path_mend, awdl_data_path_read, awdl_data_path_size,
    awdl_data_path_write,
};
pub use frame_calls::{awdl_frame_read, awdl_frame_write, awdl_tx_delta};
pub use item_calls::{awdl_step, awdl_write_item};
pub use judge_calls::{awdl_channel_load, awdl_judge, awdl_own_proposal};
pub use search_calls::{
    awdl_first_channel_sequence, awdl_first_data_path, awdl_first_synchronization,
    awdl_next_channel_sequence, awdl_next_data_path, awdl_next_synchronization,
};
pub use sequence_calls::{
    awdl_channel, awdl_sequence_consistent, awdl_sequence_entry, awdl_sequence_read,
    awdl_sequence_size, awdl_sequence_to_simple, awdl_sequence_write,
};
pub use synchronization_calls::{
    awdl_synchronization_consistent, awdl_synchronization_read, awdl_synchronization_size,
    awdl_synchronization_write,
};
