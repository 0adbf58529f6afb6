ghost use Rattle.std.specs.Prelude.{◌≡◌};
ghost use Rattle.data_path_fields.specs.Fields.{country, country_bytes, infra, infra_bytes};

use wire::{MACAddress, Refusal, Wire, field_at, put_slice};

#[derive(Clone, Copy, Debug, PartialEq, Eq, Hash, Default)]
pub struct CountryCode {
    pub first: u8,
    pub second: u8,
    // It is written again as it was read, and any byte is right where the country is there.
    pub pad: u8,
}

impl Wire for CountryCode {
    ghost format = { country };

    ghost bytes = { country_bytes };

    fn read_at(s: &[u8], at: usize) -> Result<(CountryCode, usize), Refusal> {
        let next = field_at(s, at, 3)?;
        let country = CountryCode {
            first: s[at],
            second: s[at + 1],
            pad: s[at + 2],
        };
        Ok((country, next))
    }

    fn put_at(self, buf: &mut [u8], at: usize) -> usize {
        put_slice(buf, at, &[self.first, self.second, self.pad])
    }
}

#[derive(Clone, Copy, Debug, PartialEq, Eq, Hash, Default)]
pub struct InfraBssidChannel {
    pub bssid: MACAddress,
    pub channel: u16,
}

impl Wire for InfraBssidChannel {
    ghost format = { infra };

    ghost bytes = { infra_bytes };

    fn read_at(s: &[u8], at: usize) -> Result<(InfraBssidChannel, usize), Refusal> {
        let (bssid, at) = MACAddress::read_at(s, at)?;
        let (channel, at) = u16::read_at(s, at)?;
        Ok((InfraBssidChannel { bssid, channel }, at))
    }

    // Both are put in one piece, or none is.
    fn put_at(self, buf: &mut [u8], at: usize) -> usize {
        let MACAddress(a, b, c, d, e, f) = self.bssid;
        let [low, high] = self.channel.to_le_bytes();
        put_slice(buf, at, &[a, b, c, d, e, f, low, high])
    }
}
