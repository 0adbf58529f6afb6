ghost use Rattle.std.specs.Prelude.{◌≡◌};
ghost use Rattle.wire.specs.Said.{said};
ghost use Rattle.wire.specs.Reading.{when};
ghost use Rattle.data_path_fields.specs.Fields as D;

use crate::fields::{CountryCode, InfraBssidChannel};
use crate::optional::Optional;
use data_path_words::{
    DataPathChannel, DataPathExtendedFlags, DataPathFlags, DataPathStats, UnicastOptions, has,
};
use wire::{MACAddress, Refusal, Wire};

// What stands in front of the addresses. This part of the record, those below, and the readers of
// the head and of the body are public only because the record stands in a crate of its own.
#[derive(Clone, Copy, Debug, PartialEq, Eq, Hash, Default)]
pub struct Head {
    pub flags: u16,
    pub country: Optional<CountryCode>,
    pub channel: Optional<DataPathChannel>,
}

#[tactic(auto, using(data_path_words::proofs::OneBit::announcing))]
pub fn read_head(s: &[u8]) -> Result<(Head, usize), Refusal>
    ensures { said result ≡ D.head s.now 0 }
{
    let (flags, at) = u16::read_at(s, 0)?;
    let has_country = has(flags, DataPathFlags::COUNTRY_CODE_PRESENT);
    let (country, at) = Optional::read_at(s, at, has_country)?;
    let has_channel = has(flags, DataPathFlags::CHANNEL_MAP_PRESENT);
    let (channel, at) = Optional::read_at(s, at, has_channel)?;
    let head = Head {
        flags,
        country,
        channel,
    };
    Ok((head, at))
}

// A part of the body, and public only for that.
#[derive(Clone, Copy, Debug, PartialEq, Eq, Hash, Default)]
pub struct Addresses {
    pub bssid: Optional<InfraBssidChannel>,
    pub infra: Optional<MACAddress>,
    pub awdl: Optional<MACAddress>,
}

#[tactic(auto, using(data_path_words::proofs::OneBit::announcing))]
fn read_addresses(s: &[u8], at: usize, flags: u16) -> Result<(Addresses, usize), Refusal>
    ensures { said result ≡ D.addresses flags s.now at }
{
    let has_bssid = has(flags, DataPathFlags::INFRA_BSSID_CHANNEL_PRESENT);
    let has_infra = has(flags, DataPathFlags::INFRA_ADDRESS_PRESENT);
    let has_awdl = has(flags, DataPathFlags::AWDL_ADDRESS_PRESENT);
    let (bssid, at) = Optional::read_at(s, at, has_bssid)?;
    let (infra, at) = Optional::read_at(s, at, has_infra)?;
    let (awdl, at) = Optional::read_at(s, at, has_awdl)?;
    Ok((Addresses { bssid, infra, awdl }, at))
}

// The options, and the word that follows them where the length is 8. It is a part of the body, and
// public only for that.
#[derive(Clone, Copy, Debug, PartialEq, Eq, Hash, Default)]
pub struct Unicast {
    pub options: Optional<UnicastOptions>,
    pub ext: Optional<u32>,
}

fn options_and_ext(s: &[u8], at: usize, has_ext: bool) -> Result<(Unicast, usize), Refusal>
    ensures { said result ≡ D.options_and has_ext s.now at }
{
    let (value, at) = UnicastOptions::read_at(s, at)?;
    let (ext, at) = Optional::read_at(s, at, has_ext)?;
    let options = Optional {
        present: true,
        value,
    };
    Ok((Unicast { options, ext }, at))
}

// As `read_extended`: a function for both would take the reader as a closure, which is no plainer for two.
fn read_unicast(s: &[u8], at: usize, present: bool) -> Result<(Unicast, usize), Refusal>
    ensures { said result ≡ when present D.no_unicast D.unicast s.now at }
{
    if !present {
        return Ok((Unicast::default(), at));
    }
    let (length, at) = u16::read_at(s, at)?;
    match length {
        4 => options_and_ext(s, at, false),
        8 => options_and_ext(s, at, true),
        _ => Err(Refusal::UnicastLength),
    }
}

// The extended flags, and the fields that they announce. It is a part of the body, and public only
// for that.
#[derive(Clone, Copy, Debug, PartialEq, Eq, Hash, Default)]
pub struct Extended {
    pub flags: Optional<DataPathExtendedFlags>,
    pub trigger: Optional<u16>,
    pub rlfc: Optional<u32>,
    pub stats: Optional<DataPathStats>,
}

#[tactic(auto, using(data_path_words::proofs::OneBit::announcing))]
fn announced(
    s: &[u8],
    at: usize,
    flags: DataPathExtendedFlags,
) -> Result<(Extended, usize), Refusal>
    ensures { said result ≡ D.extended_of flags s.now at }
{
    let has_trigger = has(flags.0, DataPathExtendedFlags::LOG_TRIGGER_ID_PRESENT);
    let (trigger, at) = Optional::read_at(s, at, has_trigger)?;
    let has_rlfc = has(flags.0, DataPathExtendedFlags::RLFC_PRESENT);
    let (rlfc, at) = Optional::read_at(s, at, has_rlfc)?;
    let has_stats = has(flags.0, DataPathExtendedFlags::STATS_PRESENT);
    let (stats, at) = Optional::read_at(s, at, has_stats)?;
    let flags = Optional {
        present: true,
        value: flags,
    };
    let extended = Extended {
        flags,
        trigger,
        rlfc,
        stats,
    };
    Ok((extended, at))
}

fn read_extended(s: &[u8], at: usize, present: bool) -> Result<(Extended, usize), Refusal>
    ensures { said result ≡ when present D.no_extended D.extended s.now at }
{
    if !present {
        return Ok((Extended::default(), at));
    }
    let (flags, at) = DataPathExtendedFlags::read_at(s, at)?;
    announced(s, at, flags)
}

// What stands behind the channel word. As the head, it is public for the crate of the record.
#[derive(Clone, Copy, Debug, PartialEq, Eq, Hash, Default)]
pub struct Body {
    pub addresses: Addresses,
    pub unicast: Unicast,
    pub extended: Extended,
}

#[tactic(auto, using(data_path_words::proofs::OneBit::announcing))]
pub fn read_body(s: &[u8], at: usize, flags: u16) -> Result<(Body, usize), Refusal>
    ensures { said result ≡ D.body flags s.now at }
{
    let (addresses, at) = read_addresses(s, at, flags)?;
    let has_unicast = has(flags, DataPathFlags::UNICAST_OPTIONS_PRESENT);
    let (unicast, at) = read_unicast(s, at, has_unicast)?;
    let has_extended = has(flags, DataPathFlags::EXTENDED_FLAGS);
    let (extended, at) = read_extended(s, at, has_extended)?;
    let body = Body {
        addresses,
        unicast,
        extended,
    };
    Ok((body, at))
}
