// A data path record as numbers, and numbers as a data path record.
ghost use Rattle.std.specs.Prelude.{◌≡◌, refl, true};
ghost use Rattle.wire.specs.declared.refusal.Refusal.TheVariants.{Inconsistent};
ghost use Rattle.wire.specs.Answer.{require};
ghost use Rattle.wire.specs.Said.{told};
ghost use Rattle.data_path_state.specs.Outcomes.{zero_data_path};
ghost use Rattle.exports.specs.DataPaths.{data_path_numbers, data_path_fits, data_path_of, data_path_in};

use crate::data_path_values::{lay_optional, take_optional};
use crate::lent::{Lent, fit};
use data_path_state::DataPathStateTLV;
use data_path_words::DataPathFlags;
use wire::Refusal;

// The largest number of each field, at its place among the numbers that C lends.
const LARGEST: [u32; 44] = [
    65535, 1, 255, 255, 255, 1, 1, 65535, 1, 255, 255, 255, 255, 255, 255, 65535, 1, 255, 255, 255,
    255, 255, 255, 1, 255, 255, 255, 255, 255, 255, 1, 4294967295, 1, 4294967295, 1, 65535, 1,
    4294967295, 1, 65535, 1, 4294967295, 4294967295, 4294967295,
];

impl Lent<44> for DataPathStateTLV {
    ghost numbers_of = { data_path_numbers };

    ghost held_in = { data_path_in };

    ghost zero = { zero_data_path };

    fn to_numbers(self) -> [u32; 44] {
        let mut numbers = [0; 44];
        numbers[0] = u32::from(self.flags.0);
        lay_optional(self.country_code, &mut numbers, 1);
        lay_optional(self.channel_map, &mut numbers, 5);
        lay_optional(self.infra_bssid_channel, &mut numbers, 8);
        lay_optional(self.infra_address, &mut numbers, 16);
        lay_optional(self.awdl_address, &mut numbers, 23);
        lay_optional(self.unicast_options, &mut numbers, 30);
        lay_optional(self.unicast_options_ext, &mut numbers, 32);
        lay_optional(self.extended_flags, &mut numbers, 34);
        lay_optional(self.rlfc, &mut numbers, 36);
        lay_optional(self.log_trigger_id, &mut numbers, 38);
        lay_optional(self.stats, &mut numbers, 40);
        numbers
    }

    fn held(numbers: &[u32; 44]) -> Result<DataPathStateTLV, Refusal> {
        fit_data_path(numbers)?;
        Ok(data_path_of(numbers))
    }

    ghost zeros = { refl };
}

// A single channel is a byte, and a map a word.
pub(crate) fn fit_data_path(numbers: &[u32; 44]) -> Result<(), Refusal>
    ensures { told result ≡ require (data_path_fits numbers.now) Inconsistent }
{
    let largest = LARGEST;
    fit(numbers, &largest)?;
    if numbers[6] == 1 || numbers[7] <= 255 {
        return Ok(());
    }
    Err(Refusal::Inconsistent)
}

// Numbers that fit are narrowed by `as` (`fit`).
pub(crate) fn data_path_of(numbers: &[u32; 44]) -> DataPathStateTLV
    requires { data_path_fits numbers.now ≡ true }
    ensures { result ≡ data_path_of numbers.now }
{
    DataPathStateTLV {
        flags: DataPathFlags(numbers[0] as u16),
        country_code: take_optional(numbers, 1),
        channel_map: take_optional(numbers, 5),
        infra_bssid_channel: take_optional(numbers, 8),
        infra_address: take_optional(numbers, 16),
        awdl_address: take_optional(numbers, 23),
        unicast_options: take_optional(numbers, 30),
        unicast_options_ext: take_optional(numbers, 32),
        extended_flags: take_optional(numbers, 34),
        rlfc: take_optional(numbers, 36),
        log_trigger_id: take_optional(numbers, 38),
        stats: take_optional(numbers, 40),
    }
}
