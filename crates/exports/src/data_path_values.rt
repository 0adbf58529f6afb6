// The values of a data path record's fields among its numbers: each is laid down from a place on, and taken from there. Numbers
// that fit are narrowed by `as` (`fit`).
ghost use Rattle.std.specs.Prelude.{◌≡◌, true, ℕ, ◌+◌, ◌≤◌, ◌<◌, List, set};
ghost use Rattle.wire.specs.Reading.{when};
ghost use Rattle.exports.specs.Held.{flag_number};
ghost use Rattle.exports.specs.Laid.{beside};
ghost use Rattle.exports.specs.DataPaths.{kind_of, channel_fits, channel_of};
ghost use Rattle.exports.specs.DataPaths.{country_at, channel_at, address_at, infra_at, number_at, options_at, extended_at, stats_at, optional_at};
ghost use Rattle.exports.specs.DataPathReading as L;

use crate::numbers::address_from;
use data_path_fields::{CountryCode, InfraBssidChannel, Optional};
use data_path_words::{
    ChannelMap, DataPathChannel, DataPathExtendedFlags, DataPathStats, UnicastOptions,
};
use wire::{MACAddress, Refusal, Wire};

// As `Lent`, for the values of fields: each goes to a place among the numbers, so that it is no conversion. The place is a number
// and no const parameter, so each clause says that the field ends within.
pub(crate) trait Numbered: Wire {
    ghost width: { ℕ };

    ghost into: { ℕ → Self → List ℕ → List ℕ };

    ghost Fit: { ℕ → List ℕ → Type 0 };

    ghost value_at: { ℕ → List ℕ → Self };

    fn lay(self, numbers: &mut [u32; 44], i: usize)
        requires { i + width ≤ 44 }
        ensures { numbers.new ≡ into i self numbers.old };

    fn take(numbers: &[u32; 44], i: usize) -> Self
        requires in_bounds { i + width ≤ 44 }
        requires fit { Fit i numbers.now }
        ensures { result ≡ value_at i numbers.now };
}

// Reads an optional field: where it is there, its flag and its value are laid down. Where it is refused, what stands among the numbers is of
// no use.
pub(crate) fn optional_into<T: Numbered>(
    s: &[u8],
    at: usize,
    present: bool,
    numbers: &mut [u32; 44],
    i: usize,
) -> Result<usize, Refusal>
    requires { i + T.width < 44 }
    ensures { beside result numbers.new ≡ L.lay_optional present T.into T.format i numbers.old s.now at }
{
    if !present {
        return Ok(at);
    }
    let (value, next) = T::read_at(s, at)?;
    numbers[i] = 1;
    value.lay(numbers, i + 1);
    Ok(next)
}

pub(crate) fn lay_optional<T: Numbered>(field: Optional<T>, numbers: &mut [u32; 44], i: usize)
    requires { i + T.width < 44 }
    ensures { numbers.new ≡ T.into (i + 1) field.value (set numbers.old i (flag_number field.present)) }
{
    numbers[i] = u32::from(field.present);
    field.value.lay(numbers, i + 1);
}

pub(crate) fn take_optional<T: Numbered>(numbers: &[u32; 44], i: usize) -> Optional<T>
    requires in_bounds { i + T.width < 44 }
    requires fit { T.Fit (i + 1) numbers.now }
    ensures { result ≡ optional_at T.value_at i numbers.now }
{
    Optional {
        present: numbers[i] == 1,
        value: T::take(numbers, i + 1),
    }
}

impl Numbered for u16 {
    ghost width = { 1 };

    ghost into = { L.number_into };

    ghost Fit = { L.FitWord };

    ghost value_at = { number_at };

    fn lay(self, numbers: &mut [u32; 44], i: usize) {
        numbers[i] = u32::from(self);
    }

    fn take(numbers: &[u32; 44], i: usize) -> u16 {
        numbers[i] as u16
    }
}

impl Numbered for u32 {
    ghost width = { 1 };

    ghost into = { L.number_into };

    ghost Fit = { λ i ns. Unit {0} };

    ghost value_at = { number_at };

    fn lay(self, numbers: &mut [u32; 44], i: usize) {
        numbers[i] = self;
    }

    fn take(numbers: &[u32; 44], i: usize) -> u32 {
        numbers[i]
    }
}

impl Numbered for MACAddress {
    ghost width = { 6 };

    ghost into = { L.address_into };

    ghost Fit = { L.FitOctets 6 };

    ghost value_at = { address_at };

    fn lay(self, numbers: &mut [u32; 44], i: usize) {
        numbers[i] = u32::from(self.0);
        numbers[i + 1] = u32::from(self.1);
        numbers[i + 2] = u32::from(self.2);
        numbers[i + 3] = u32::from(self.3);
        numbers[i + 4] = u32::from(self.4);
        numbers[i + 5] = u32::from(self.5);
    }

    fn take(numbers: &[u32; 44], i: usize) -> MACAddress {
        address_from(numbers, i)
    }
}

impl Numbered for CountryCode {
    ghost width = { 3 };

    ghost into = { L.country_into };

    ghost Fit = { L.FitOctets 3 };

    ghost value_at = { country_at };

    fn lay(self, numbers: &mut [u32; 44], i: usize) {
        numbers[i] = u32::from(self.first);
        numbers[i + 1] = u32::from(self.second);
        numbers[i + 2] = u32::from(self.pad);
    }

    fn take(numbers: &[u32; 44], i: usize) -> CountryCode {
        CountryCode {
            first: numbers[i] as u8,
            second: numbers[i + 1] as u8,
            pad: numbers[i + 2] as u8,
        }
    }
}

impl Numbered for DataPathChannel {
    ghost width = { 2 };

    ghost into = { L.channel_into };

    ghost Fit = { L.FitChannel };

    ghost value_at = { channel_at };

    fn lay(self, numbers: &mut [u32; 44], i: usize) {
        numbers[i] = kind_of(self);
        numbers[i + 1] = u32::from(u16::from(self));
    }

    fn take(numbers: &[u32; 44], i: usize) -> DataPathChannel {
        channel_of(numbers[i], numbers[i + 1])
    }
}

// C is lent the kind of a channel as a number: 0 is a single one and 1 a map.
fn kind_of(channel: DataPathChannel) -> u32
    ensures { result ≡ kind_of channel }
{
    match channel {
        DataPathChannel::SingleChannel(_) => 0,
        DataPathChannel::ChannelMap(_) => 1,
    }
}

fn channel_of(kind: u32, value: u32) -> DataPathChannel
    requires value_bound { value < 65536 }
    requires value_value { channel_fits kind value ≡ true }
    ensures { result ≡ channel_of kind value }
{
    if kind == 1 {
        return DataPathChannel::ChannelMap(ChannelMap(value as u16));
    }
    DataPathChannel::SingleChannel(value as u8)
}

impl Numbered for InfraBssidChannel {
    ghost width = { 7 };

    ghost into = { L.infra_into };

    ghost Fit = { L.FitInfra };

    ghost value_at = { infra_at };

    fn lay(self, numbers: &mut [u32; 44], i: usize) {
        self.bssid.lay(numbers, i);
        numbers[i + 6] = u32::from(self.channel);
    }

    fn take(numbers: &[u32; 44], i: usize) -> InfraBssidChannel {
        InfraBssidChannel {
            bssid: address_from(numbers, i),
            channel: numbers[i + 6] as u16,
        }
    }
}

impl Numbered for UnicastOptions {
    ghost width = { 1 };

    ghost into = { L.options_into };

    ghost Fit = { λ i ns. Unit {0} };

    ghost value_at = { options_at };

    fn lay(self, numbers: &mut [u32; 44], i: usize) {
        self.0.lay(numbers, i);
    }

    fn take(numbers: &[u32; 44], i: usize) -> UnicastOptions {
        UnicastOptions(u32::take(numbers, i))
    }
}

impl Numbered for DataPathExtendedFlags {
    ghost width = { 1 };

    ghost into = { L.extended_into };

    ghost Fit = { L.FitWord };

    ghost value_at = { extended_at };

    fn lay(self, numbers: &mut [u32; 44], i: usize) {
        self.0.lay(numbers, i);
    }

    fn take(numbers: &[u32; 44], i: usize) -> DataPathExtendedFlags {
        DataPathExtendedFlags(u16::take(numbers, i))
    }
}

impl Numbered for DataPathStats {
    ghost width = { 3 };

    ghost into = { L.stats_into };

    ghost Fit = { λ i ns. Unit {0} };

    ghost value_at = { stats_at };

    fn lay(self, numbers: &mut [u32; 44], i: usize) {
        numbers[i] = self.msec_since_activation;
        numbers[i + 1] = self.aw_seq_counter;
        numbers[i + 2] = self.pay_update_coutner;
    }

    fn take(numbers: &[u32; 44], i: usize) -> DataPathStats {
        DataPathStats {
            msec_since_activation: numbers[i],
            aw_seq_counter: numbers[i + 1],
            pay_update_coutner: numbers[i + 2],
        }
    }
}
