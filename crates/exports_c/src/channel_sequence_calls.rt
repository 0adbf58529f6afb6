ghost use Rattle.wire.specs.Outcomes.{outcome, reply};
ghost use Rattle.channel_sequence_tlv.specs.SequenceTLVs.{zero_channel_sequence};
ghost use Rattle.channel_sequence_tlv.specs.SequenceTLVReader.{channel_sequence_record};
ghost use Rattle.exports.specs.Sequences.{channel_sequence_numbers};
ghost use Rattle.exports.specs.Sequences.{channel_sequence_consistent, channel_sequence_size, channel_sequence_bytes};
ghost use Rattle.exports.specs.Told.{ToldReading, ToldNumber, ToldWriting};

#[unsafe(no_mangle)]
pub extern "C" fn awdl_channel_sequence_read(
    bytes: &[u8],
    at: usize,
    offset: &mut usize,
    size: &mut usize,
    numbers: &mut [u32; 36],
) -> u32
    ensures { ToldReading channel_sequence_numbers (outcome zero_channel_sequence at (channel_sequence_record bytes.now at)) result offset.new size.new numbers.new }
{
    exports::awdl_channel_sequence_read(bytes, at, offset, size, numbers)
}

#[unsafe(no_mangle)]
pub extern "C" fn awdl_channel_sequence_consistent(numbers: &[u32; 36], consistent: &mut u32) -> u32
    ensures { ToldNumber (reply 0 (channel_sequence_consistent numbers.now)) result consistent.new }
{
    exports::awdl_channel_sequence_consistent(numbers, consistent)
}

#[unsafe(no_mangle)]
pub extern "C" fn awdl_channel_sequence_size(numbers: &[u32; 36], size: &mut usize) -> u32
    ensures { ToldNumber (reply 0 (channel_sequence_size numbers.now)) result size.new }
{
    exports::awdl_channel_sequence_size(numbers, size)
}

#[unsafe(no_mangle)]
pub extern "C" fn awdl_channel_sequence_write(
    numbers: &[u32; 36],
    buffer: &mut [u8],
    size: &mut usize,
) -> u32
    ensures { ToldWriting buffer.old (channel_sequence_bytes numbers.now) result size.new buffer.new }
{
    exports::awdl_channel_sequence_write(numbers, buffer, size)
}
