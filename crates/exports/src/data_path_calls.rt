ghost use Rattle.std.specs.Prelude.{◌≡◌};
ghost use Rattle.wire.specs.Said.{told};
ghost use Rattle.wire.specs.Outcomes.{outcome, reply};
ghost use Rattle.wire.specs.Writing.{Wrote};
ghost use Rattle.data_path_state.specs.DataPath.{data_path};
ghost use Rattle.data_path_state.specs.Outcomes.{zero_data_path};
ghost use Rattle.exports.specs.DataPaths.{data_path_numbers, data_path_consistent, data_path_mended, data_path_size, data_path_bytes};
ghost use Rattle.exports.specs.Told.{ToldReading, ToldNumber, ToldRecord, ToldWriting};

use crate::data_path_reading::data_path_into;
use crate::data_path_record::{data_path_of, fit_data_path};
use crate::lent::Lent;
use crate::told::{number_of, tell, tell_flag, tell_read};
use data_path_state::DataPathStateTLV;
use wire::Refusal;

fn write_data_path(numbers: &[u32; 44], buffer: &mut [u8]) -> Result<usize, Refusal>
    ensures { Wrote buffer.old (data_path_bytes numbers.now) (told result) buffer.new }
{
    fit_data_path(numbers)?;
    data_path_of(numbers).write(buffer)
}

// It asks the record where it is made, as `sequence_consistent` does.
fn data_path_size(numbers: &[u32; 44]) -> Result<usize, Refusal>
    ensures { told result ≡ data_path_size numbers.now }
{
    fit_data_path(numbers)?;
    data_path_of(numbers).size()
}

pub fn awdl_data_path_read(
    bytes: &[u8],
    offset: &mut usize,
    size: &mut usize,
    numbers: &mut [u32; 44],
) -> u32
    ensures { ToldReading data_path_numbers (outcome zero_data_path 0 (data_path bytes.now 0)) result offset.new size.new numbers.new }
{
    let behind = data_path_into(bytes, numbers);
    tell_read(behind, 0, offset, size, numbers)
}

pub fn awdl_data_path_consistent(numbers: &[u32; 44], consistent: &mut u32) -> u32
    ensures { ToldNumber (reply 0 (data_path_consistent numbers.now)) result consistent.new }
{
    let held = DataPathStateTLV::held(numbers);
    tell_flag(held.map(|d| d.consistent()), consistent)
}

pub fn awdl_data_path_mend(numbers: &[u32; 44], mended: &mut [u32; 44]) -> u32
    ensures { ToldRecord data_path_numbers (reply zero_data_path (data_path_mended numbers.now)) result mended.new }
{
    // As `tell_record`, with no `Result` of a record between them, which took half as long again (docs/LOOK-BACK.md).
    match fit_data_path(numbers) {
        Ok(()) => {
            *mended = data_path_of(numbers).mend().to_numbers();
            0
        }
        Err(why) => {
            mended.fill(0);
            number_of(why)
        }
    }
}

pub fn awdl_data_path_size(numbers: &[u32; 44], size: &mut usize) -> u32
    ensures { ToldNumber (reply 0 (data_path_size numbers.now)) result size.new }
{
    let answer = data_path_size(numbers);
    tell(answer, 0, size)
}

pub fn awdl_data_path_write(numbers: &[u32; 44], buffer: &mut [u8], size: &mut usize) -> u32
    ensures { ToldWriting buffer.old (data_path_bytes numbers.now) result size.new buffer.new }
{
    let wrote = write_data_path(numbers, buffer);
    tell(wrote, 0, size)
}
