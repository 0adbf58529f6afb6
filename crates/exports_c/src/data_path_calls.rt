ghost use Rattle.wire.specs.Outcomes.{outcome, reply};
ghost use Rattle.data_path_state.specs.DataPath.{data_path};
ghost use Rattle.data_path_state.specs.Outcomes.{zero_data_path};
ghost use Rattle.exports.specs.DataPaths.{data_path_numbers, data_path_consistent, data_path_mended, data_path_size, data_path_bytes};
ghost use Rattle.exports.specs.Told.{ToldReading, ToldNumber, ToldRecord, ToldWriting};

#[unsafe(no_mangle)]
pub extern "C" fn awdl_data_path_read(
    bytes: &[u8],
    offset: &mut usize,
    size: &mut usize,
    numbers: &mut [u32; 44],
) -> u32
    ensures { ToldReading data_path_numbers (outcome zero_data_path 0 (data_path bytes.now 0)) result offset.new size.new numbers.new }
{
    exports::awdl_data_path_read(bytes, offset, size, numbers)
}

#[unsafe(no_mangle)]
pub extern "C" fn awdl_data_path_consistent(numbers: &[u32; 44], consistent: &mut u32) -> u32
    ensures { ToldNumber (reply 0 (data_path_consistent numbers.now)) result consistent.new }
{
    exports::awdl_data_path_consistent(numbers, consistent)
}

#[unsafe(no_mangle)]
pub extern "C" fn awdl_data_path_mend(numbers: &[u32; 44], mended: &mut [u32; 44]) -> u32
    ensures { ToldRecord data_path_numbers (reply zero_data_path (data_path_mended numbers.now)) result mended.new }
{
    exports::awdl_data_path_mend(numbers, mended)
}

#[unsafe(no_mangle)]
pub extern "C" fn awdl_data_path_size(numbers: &[u32; 44], size: &mut usize) -> u32
    ensures { ToldNumber (reply 0 (data_path_size numbers.now)) result size.new }
{
    exports::awdl_data_path_size(numbers, size)
}

#[unsafe(no_mangle)]
pub extern "C" fn awdl_data_path_write(
    numbers: &[u32; 44],
    buffer: &mut [u8],
    size: &mut usize,
) -> u32
    ensures { ToldWriting buffer.old (data_path_bytes numbers.now) result size.new buffer.new }
{
    exports::awdl_data_path_write(numbers, buffer, size)
}
