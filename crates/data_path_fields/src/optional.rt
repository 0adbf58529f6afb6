ghost use Rattle.std.specs.Prelude.{◌≡◌};
ghost use Rattle.std.proofs.Common.{rules};
ghost use Rattle.wire.specs.Said.{said};
ghost use Rattle.wire.specs.Addresses.{zero_address};
ghost use Rattle.data_path_words.specs.Words.{zero_channel, zero_options, zero_extended_flags, zero_stats};
ghost use Rattle.data_path_fields.specs.Fields.{zero_country, zero_infra};
ghost use Rattle.data_path_fields.specs.Optional.{none, optional};

use crate::fields::{CountryCode, InfraBssidChannel};
use data_path_words::{DataPathChannel, DataPathExtendedFlags, DataPathStats, UnicastOptions};
use wire::{MACAddress, Refusal, Wire};

// A field that may be missing: a flag beside its value, which is zero where the field is missing. It is no `Option`, since a
// caller of the record may lay down any value beside a flag that is false, and whether a record is consistent is asked of just
// such values (`DataPathStateTLV::consistent`, `absent_zero`).
#[derive(Clone, Copy, Debug, PartialEq, Eq, Hash, Default)]
pub struct Optional<T> {
    pub present: bool,
    pub value: T,
}

// What may be missing. Its zero is the one value that `default` gives.
pub trait Field: Wire + Default + PartialEq {
    ghost zero: { Self };

    ghost only_default: { (x : Self) → Self.is_default x → x ≡ zero };
}

impl<T: Field> Optional<T> {
    // The value where the field is announced, and zero where it is not.
    pub(crate) fn read_at(
        s: &[u8],
        at: usize,
        present: bool,
    ) -> Result<(Optional<T>, usize), Refusal>
        ensures { said result ≡ optional present T.zero T.format s.now at }
    {
        if !present {
            return Ok((Optional::default(), at));
        }
        let (value, at) = T::read_at(s, at)?;
        Ok((Optional { present, value }, at))
    }
}

impl Field for CountryCode {
    ghost zero = { zero_country };

    ghost only_default = { Prim.search rules };
}

impl Field for DataPathChannel {
    ghost zero = { zero_channel };

    ghost only_default = { Prim.search rules };
}

impl Field for InfraBssidChannel {
    ghost zero = { zero_infra };

    ghost only_default = { Prim.search rules };
}

impl Field for MACAddress {
    ghost zero = { zero_address };

    ghost only_default = { Prim.search rules };
}

impl Field for UnicastOptions {
    ghost zero = { zero_options };

    ghost only_default = { Prim.search rules };
}

impl Field for DataPathExtendedFlags {
    ghost zero = { zero_extended_flags };

    ghost only_default = { Prim.search rules };
}

impl Field for DataPathStats {
    ghost zero = { zero_stats };

    ghost only_default = { Prim.search rules };
}

impl Field for u16 {
    ghost zero = { 0 };

    ghost only_default = { Prim.search rules };
}

impl Field for u32 {
    ghost zero = { 0 };

    ghost only_default = { Prim.search rules };
}
