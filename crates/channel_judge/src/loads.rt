ghost use Rattle.std.specs.Prelude.{◌≡◌, ◌∷◌, [], ◌/◌, ◌≤◌, ◌<◌, length, cond, ltb};
ghost use Rattle.wire.specs.Said.{told};
ghost use Rattle.channel_sequence.specs.Hops.{entry_bytes};
ghost use Rattle.channel_judge.specs.Loads.{corrected_entry, channels_from, count};
ghost use Rattle.channel_judge.specs.Judging.{judged_by, proposed_by};
ghost use Rattle.channel_judge.specs.Counters.{load_by, AtMost, Grown, said_loads, whole_sequences, counted, lent_loads};

use channel::ChannelEncoding;
use wire::Refusal;

// A counter for each channel. It says how many entries stand for the channel.
#[derive(Clone, Copy)]
pub(crate) struct Loads {
    counts: [u16; 256],
}

impl Loads {
    // No entry is counted yet. The callers' proofs need not see the 256 zeros.
    pub(crate) fn new() -> Loads
        ensures { AtMost 0 result }
    {
        Loads { counts: [0; 256] }
    }

    // The load of every channel: one pass over what is lent. The counters are filled where they stand, since a `Result` that held
    // them would be copied from call to call.
    #[tactic(auto, using(crate::proofs::Loaded::of_loads))]
    pub(crate) fn count_lent(&mut self, sequences: &[u8], channels: usize) -> Result<(), Refusal>
        requires { AtMost 0 self.old }
        ensures { said_loads result self.new ≡ lent_loads sequences.now channels }
    {
        let many = sequences.len() / 33;
        if sequences.len() % 33 != 0 {
            return Err(Refusal::Short(33 * many));
        }
        if 64 < many || 16 < channels {
            return Err(Refusal::TooMany);
        }
        self.count_sequences(sequences)
    }

    pub(crate) fn of_channel(&self, channel: u8) -> u16
        ensures { result ≡ load_by self.now channel }
    {
        self.counts[usize::from(channel)]
    }

    pub(crate) fn judge(&self, permitted: &[u8], proposal: u8) -> Result<(), Refusal>
        ensures { told result ≡ judged_by (load_by self.now) permitted.now proposal }
    {
        let own = self.least(permitted)?;
        if !permitted.contains(&proposal) {
            return Err(Refusal::NotPermitted);
        }
        if self.of_channel(own) < self.of_channel(proposal) {
            return Err(Refusal::SmallerLoad(own));
        }
        Ok(())
    }

    // The first of the channels with the smallest load. None is below it, so that a proposal is held against it alone. A loop
    // over `smaller` and no `min_by_key`, so that the edit last_of_equal_loads turns the one comparison that decides.
    pub(crate) fn least(&self, permitted: &[u8]) -> Result<u8, Refusal>
        ensures { told result ≡ proposed_by (load_by self.now) permitted.now }
    {
        let [first, others @ ..] = permitted else {
            return Err(Refusal::NonePermitted);
        };
        let mut own = *first;
        for channel in others {
            own = self.smaller(own, *channel);
        }
        Ok(own)
    }

    // Of two equal ones the first stays.
    fn smaller(&self, best: u8, channel: u8) -> u8
        ensures { result ≡ cond (ltb (load_by self.now channel) (load_by self.now best)) channel best }
    {
        if self.of_channel(channel) < self.of_channel(best) {
            channel
        } else {
            best
        }
    }

    // One pass over all sequences, which ends at an encoding that is not listed.
    fn count_sequences(&mut self, sequences: &[u8]) -> Result<(), Refusal>
        requires at_most { AtMost 0 self.old }
        requires few { length sequences.now / 33 ≤ 64 }
        ensures { said_loads result self.new ≡ counted (whole_sequences sequences.now) }
    {
        for sequence in sequences.chunks_exact(33) {
            let encoding = ChannelEncoding::try_from(sequence[0])?;
            self.count_sequence(encoding, &sequence[1..]);
        }
        Ok(())
    }

    // The sixteen entries of one sequence. By number: how many bytes an entry has goes by the encoding, so that no one
    // `chunks_exact` serves, and a simple sequence ends in its middle.
    fn count_sequence(&mut self, encoding: ChannelEncoding, bytes: &[u8])
        requires at_most { AtMost 1024 self.old }
        requires bytes_len { length bytes.now ≡ 32 }
        ensures { Grown self.old (λ channel. count channel (channels_from encoding bytes.now 0 16)) self.new }
    {
        for n in 0..16 {
            self.count(corrected_entry(encoding, bytes, n));
        }
    }

    fn count(&mut self, channel: u8)
        requires { load_by self.old channel < 65535 }
        ensures { Grown self.old (λ c. count c (channel ∷ [])) self.new }
    {
        self.counts[usize::from(channel)] += 1;
    }
}

// The channel that an entry stands for. `ChannelSequence::entry` would look the encoding up again for each of the sixteen.
fn corrected_entry(encoding: ChannelEncoding, bytes: &[u8], n: usize) -> u8
    requires bytes_len { length bytes.now ≡ 32 }
    requires n_bound { n < 16 }
    ensures { result ≡ corrected_entry encoding (entry_bytes encoding n bytes.now) }
{
    match encoding {
        ChannelEncoding::Simple => encoding.corrected(bytes[n], 0),
        ChannelEncoding::Legacy | ChannelEncoding::OpClass => {
            encoding.corrected(bytes[2 * n], bytes[2 * n + 1])
        }
    }
}
