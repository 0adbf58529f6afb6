ghost use Rattle.wire.specs.Outcomes.{outcome, reply};
ghost use Rattle.channel_sequence.specs.Sequences.{zero_sequence};
ghost use Rattle.channel_sequence.specs.SequenceReader.{sequence};
ghost use Rattle.channel_sequence.specs.Hops.{nothing};
ghost use Rattle.exports.specs.Sequences.{corrected_of, sequence_numbers};
ghost use Rattle.exports.specs.Sequences.{sequence_consistent, sequence_size, sequence_bytes, sequence_entry, sequence_simple, sequence_read_in};
ghost use Rattle.exports.specs.Told.{ToldReading, ToldNumber, ToldRecord, ToldWriting, ToldHop};

#[unsafe(no_mangle)]
pub extern "C" fn awdl_sequence_read(
    bytes: &[u8],
    at: usize,
    encoding: u32,
    offset: &mut usize,
    size: &mut usize,
    sequence: &mut [u32; 33],
) -> u32
    ensures { ToldReading sequence_numbers (outcome zero_sequence at (sequence_read_in encoding bytes.now at)) result offset.new size.new sequence.new }
{
    exports::awdl_sequence_read(bytes, at, encoding, offset, size, sequence)
}

#[unsafe(no_mangle)]
pub extern "C" fn awdl_sequence_consistent(sequence: &[u32; 33], consistent: &mut u32) -> u32
    ensures { ToldNumber (reply 0 (sequence_consistent sequence.now)) result consistent.new }
{
    exports::awdl_sequence_consistent(sequence, consistent)
}

#[unsafe(no_mangle)]
pub extern "C" fn awdl_sequence_size(sequence: &[u32; 33], size: &mut usize) -> u32
    ensures { ToldNumber (reply 0 (sequence_size sequence.now)) result size.new }
{
    exports::awdl_sequence_size(sequence, size)
}

#[unsafe(no_mangle)]
pub extern "C" fn awdl_sequence_write(
    sequence: &[u32; 33],
    buffer: &mut [u8],
    size: &mut usize,
) -> u32
    ensures { ToldWriting buffer.old (sequence_bytes sequence.now) result size.new buffer.new }
{
    exports::awdl_sequence_write(sequence, buffer, size)
}

#[unsafe(no_mangle)]
pub extern "C" fn awdl_sequence_entry(
    sequence: &[u32; 33],
    entry: usize,
    found: &mut u32,
    channel: &mut [u32; 3],
) -> u32
    ensures { ToldHop (reply nothing (sequence_entry sequence.now entry)) result found.new channel.new }
{
    exports::awdl_sequence_entry(sequence, entry, found, channel)
}

#[unsafe(no_mangle)]
pub extern "C" fn awdl_sequence_to_simple(sequence: &[u32; 33], simple: &mut [u32; 33]) -> u32
    ensures { ToldRecord sequence_numbers (reply zero_sequence (sequence_simple sequence.now)) result simple.new }
{
    exports::awdl_sequence_to_simple(sequence, simple)
}

#[unsafe(no_mangle)]
pub extern "C" fn awdl_channel(channel: &[u32; 3], answer: &mut u32) -> u32
    ensures { ToldNumber (reply 0 (corrected_of channel.now)) result answer.new }
{
    exports::awdl_channel(channel, answer)
}
