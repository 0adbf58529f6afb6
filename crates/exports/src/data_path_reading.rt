// A data path record is read straight into its numbers, since a record between them would go through memory (docs/SPEED.md). Each of these
// reads a part of it at a place, lays its numbers down, and gives the place behind it. Where a part is refused, what stands among the numbers
// is of no use.
ghost use Rattle.std.specs.Prelude.{◌≡◌};
ghost use Rattle.wire.specs.Reading.{when};
ghost use Rattle.data_path_state.specs.DataPath.{data_path};
ghost use Rattle.exports.specs.DataPaths.{data_path_numbers};
ghost use Rattle.exports.specs.DataPathReading as L;
ghost use Rattle.exports.specs.Laid.{beside, numbered};

use crate::data_path_values::optional_into;
use data_path_fields::{CountryCode, InfraBssidChannel};
use data_path_words::{
    DataPathChannel, DataPathExtendedFlags, DataPathFlags, DataPathStats, UnicastOptions, has,
};
use wire::{MACAddress, Refusal, Wire};

#[tactic(auto, using(data_path_words::proofs::OneBit::announcing))]
fn head_into(s: &[u8], at: usize, flags: u16, numbers: &mut [u32; 44]) -> Result<usize, Refusal>
    ensures { beside result numbers.new ≡ L.lay_head flags numbers.old s.now at }
{
    let has_country = has(flags, DataPathFlags::COUNTRY_CODE_PRESENT);
    let at = optional_into::<CountryCode>(s, at, has_country, numbers, 1)?;
    let has_channel = has(flags, DataPathFlags::CHANNEL_MAP_PRESENT);
    optional_into::<DataPathChannel>(s, at, has_channel, numbers, 5)
}

#[tactic(auto, using(data_path_words::proofs::OneBit::announcing))]
fn addresses_into(
    s: &[u8],
    at: usize,
    flags: u16,
    numbers: &mut [u32; 44],
) -> Result<usize, Refusal>
    ensures { beside result numbers.new ≡ L.lay_addresses flags numbers.old s.now at }
{
    let has_bssid = has(flags, DataPathFlags::INFRA_BSSID_CHANNEL_PRESENT);
    let at = optional_into::<InfraBssidChannel>(s, at, has_bssid, numbers, 8)?;
    let has_infra = has(flags, DataPathFlags::INFRA_ADDRESS_PRESENT);
    let at = optional_into::<MACAddress>(s, at, has_infra, numbers, 16)?;
    let has_awdl = has(flags, DataPathFlags::AWDL_ADDRESS_PRESENT);
    optional_into::<MACAddress>(s, at, has_awdl, numbers, 23)
}

fn options_into(
    s: &[u8],
    at: usize,
    second: bool,
    numbers: &mut [u32; 44],
) -> Result<usize, Refusal>
    ensures { beside result numbers.new ≡ L.lay_options second numbers.old s.now at }
{
    let at = optional_into::<UnicastOptions>(s, at, true, numbers, 30)?;
    optional_into::<u32>(s, at, second, numbers, 32)
}

fn unicast_into(
    s: &[u8],
    at: usize,
    present: bool,
    numbers: &mut [u32; 44],
) -> Result<usize, Refusal>
    ensures { beside result numbers.new ≡ when present numbers.old (L.lay_unicast numbers.old) s.now at }
{
    if !present {
        return Ok(at);
    }
    let (length, at) = u16::read_at(s, at)?;
    match length {
        4 => options_into(s, at, false, numbers),
        8 => options_into(s, at, true, numbers),
        _ => Err(Refusal::UnicastLength),
    }
}

#[tactic(auto, using(data_path_words::proofs::OneBit::announcing))]
fn behind_extended_into(
    s: &[u8],
    at: usize,
    flags: DataPathExtendedFlags,
    numbers: &mut [u32; 44],
) -> Result<usize, Refusal>
    ensures { beside result numbers.new ≡ L.lay_behind_extended flags numbers.old s.now at }
{
    let has_trigger = has(flags.0, DataPathExtendedFlags::LOG_TRIGGER_ID_PRESENT);
    let at = optional_into::<u16>(s, at, has_trigger, numbers, 38)?;
    let has_rlfc = has(flags.0, DataPathExtendedFlags::RLFC_PRESENT);
    let at = optional_into::<u32>(s, at, has_rlfc, numbers, 36)?;
    let has_stats = has(flags.0, DataPathExtendedFlags::STATS_PRESENT);
    optional_into::<DataPathStats>(s, at, has_stats, numbers, 40)
}

fn extended_into(
    s: &[u8],
    at: usize,
    present: bool,
    numbers: &mut [u32; 44],
) -> Result<usize, Refusal>
    ensures { beside result numbers.new ≡ when present numbers.old (L.lay_extended numbers.old) s.now at }
{
    if !present {
        return Ok(at);
    }
    let (flags, at) = DataPathExtendedFlags::read_at(s, at)?;
    numbers[34] = 1;
    numbers[35] = u32::from(flags.0);
    behind_extended_into(s, at, flags, numbers)
}

#[tactic(auto, using(data_path_words::proofs::OneBit::announcing))]
fn behind_flags_into(
    s: &[u8],
    at: usize,
    flags: u16,
    numbers: &mut [u32; 44],
) -> Result<usize, Refusal>
    ensures { beside result numbers.new ≡ L.lay_behind_flags flags numbers.old s.now at }
{
    let at = head_into(s, at, flags, numbers)?;
    let at = addresses_into(s, at, flags, numbers)?;
    let has_unicast = has(flags, DataPathFlags::UNICAST_OPTIONS_PRESENT);
    let at = unicast_into(s, at, has_unicast, numbers)?;
    let has_extended = has(flags, DataPathFlags::EXTENDED_FLAGS);
    extended_into(s, at, has_extended, numbers)
}

// The place behind the record, and its numbers.
pub(crate) fn data_path_into(s: &[u8], numbers: &mut [u32; 44]) -> Result<usize, Refusal>
    ensures { beside result numbers.new ≡ numbered data_path_numbers data_path s.now 0 }
{
    let (flags, at) = u16::read_at(s, 0)?;
    *numbers = [0; 44];
    numbers[0] = u32::from(flags);
    behind_flags_into(s, at, flags, numbers)
}
