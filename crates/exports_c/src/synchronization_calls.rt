ghost use Rattle.wire.specs.Outcomes.{outcome, reply};
ghost use Rattle.synchronization_parameters.specs.SynchronizationReader.{synchronization, zero_synchronization};
ghost use Rattle.exports.specs.Synchronizations.{synchronization_numbers};
ghost use Rattle.exports.specs.Synchronizations.{synchronization_consistent, synchronization_size, synchronization_bytes};
ghost use Rattle.exports.specs.Told.{ToldReading, ToldNumber, ToldWriting};

#[unsafe(no_mangle)]
pub extern "C" fn awdl_synchronization_read(
    bytes: &[u8],
    offset: &mut usize,
    size: &mut usize,
    numbers: &mut [u32; 60],
) -> u32
    ensures { ToldReading synchronization_numbers (outcome zero_synchronization 0 (synchronization bytes.now 0)) result offset.new size.new numbers.new }
{
    exports::awdl_synchronization_read(bytes, offset, size, numbers)
}

#[unsafe(no_mangle)]
pub extern "C" fn awdl_synchronization_consistent(numbers: &[u32; 60], consistent: &mut u32) -> u32
    ensures { ToldNumber (reply 0 (synchronization_consistent numbers.now)) result consistent.new }
{
    exports::awdl_synchronization_consistent(numbers, consistent)
}

#[unsafe(no_mangle)]
pub extern "C" fn awdl_synchronization_size(numbers: &[u32; 60], size: &mut usize) -> u32
    ensures { ToldNumber (reply 0 (synchronization_size numbers.now)) result size.new }
{
    exports::awdl_synchronization_size(numbers, size)
}

#[unsafe(no_mangle)]
pub extern "C" fn awdl_synchronization_write(
    numbers: &[u32; 60],
    buffer: &mut [u8],
    size: &mut usize,
) -> u32
    ensures { ToldWriting buffer.old (synchronization_bytes numbers.now) result size.new buffer.new }
{
    exports::awdl_synchronization_write(numbers, buffer, size)
}
