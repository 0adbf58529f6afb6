ghost use Rattle.data_path_state.specs.Outcomes.{zero_data_path};
ghost use Rattle.synchronization_parameters.specs.SynchronizationReader.{zero_synchronization};
ghost use Rattle.channel_sequence_tlv.specs.SequenceTLVs.{zero_channel_sequence};
ghost use Rattle.tlvs.specs.Search.{next_data_path, next_synchronization, next_channel_sequence};
ghost use Rattle.exports.specs.DataPaths.{data_path_numbers};
ghost use Rattle.exports.specs.Sequences.{channel_sequence_numbers};
ghost use Rattle.exports.specs.Synchronizations.{synchronization_numbers};
ghost use Rattle.exports.specs.Told.{ToldSearch};

#[unsafe(no_mangle)]
pub extern "C" fn awdl_next_data_path(
    tail: &[u8],
    at: usize,
    item: &mut [usize; 4],
    numbers: &mut [u32; 44],
) -> u32
    ensures { ToldSearch data_path_numbers zero_data_path (next_data_path tail.now at) result item.new numbers.new }
{
    exports::awdl_next_data_path(tail, at, item, numbers)
}

#[unsafe(no_mangle)]
pub extern "C" fn awdl_first_data_path(
    tail: &[u8],
    item: &mut [usize; 4],
    numbers: &mut [u32; 44],
) -> u32
    ensures { ToldSearch data_path_numbers zero_data_path (next_data_path tail.now 0) result item.new numbers.new }
{
    exports::awdl_first_data_path(tail, item, numbers)
}

#[unsafe(no_mangle)]
pub extern "C" fn awdl_next_synchronization(
    tail: &[u8],
    at: usize,
    item: &mut [usize; 4],
    numbers: &mut [u32; 60],
) -> u32
    ensures { ToldSearch synchronization_numbers zero_synchronization (next_synchronization tail.now at) result item.new numbers.new }
{
    exports::awdl_next_synchronization(tail, at, item, numbers)
}

#[unsafe(no_mangle)]
pub extern "C" fn awdl_first_synchronization(
    tail: &[u8],
    item: &mut [usize; 4],
    numbers: &mut [u32; 60],
) -> u32
    ensures { ToldSearch synchronization_numbers zero_synchronization (next_synchronization tail.now 0) result item.new numbers.new }
{
    exports::awdl_first_synchronization(tail, item, numbers)
}

#[unsafe(no_mangle)]
pub extern "C" fn awdl_next_channel_sequence(
    tail: &[u8],
    at: usize,
    item: &mut [usize; 4],
    numbers: &mut [u32; 36],
) -> u32
    ensures { ToldSearch channel_sequence_numbers zero_channel_sequence (next_channel_sequence tail.now at) result item.new numbers.new }
{
    exports::awdl_next_channel_sequence(tail, at, item, numbers)
}

#[unsafe(no_mangle)]
pub extern "C" fn awdl_first_channel_sequence(
    tail: &[u8],
    item: &mut [usize; 4],
    numbers: &mut [u32; 36],
) -> u32
    ensures { ToldSearch channel_sequence_numbers zero_channel_sequence (next_channel_sequence tail.now 0) result item.new numbers.new }
{
    exports::awdl_first_channel_sequence(tail, item, numbers)
}
