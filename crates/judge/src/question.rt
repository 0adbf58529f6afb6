// A question, as far as its lines have been taken.
use arrayvec::ArrayVec;
use channel_sequence_tlv::ChannelSequenceTLV;
use text::HexError;
use wire::Refusal;

// The word `value`, a space, and the digits of 4,096 bytes.
const LONGEST: usize = 8198;

// Why a line of the file is no value.
#[derive(Clone, Copy, Debug, PartialEq, Eq, Hash)]
pub(crate) enum Fault {
    TooLong,
    NotHex,
    Refused(Refusal),
}

impl From<HexError> for Fault {
    fn from(error: HexError) -> Fault {
        match error {
            HexError::NoRoom => Fault::TooLong,
            HexError::NotHex => Fault::NotHex,
        }
    }
}

impl From<Refusal> for Fault {
    fn from(why: Refusal) -> Fault {
        Fault::Refused(why)
    }
}

// What is bad in a question. A line of the file is told by its number.
#[derive(Clone, Copy, Debug, PartialEq, Eq, Hash)]
pub(crate) enum Bad {
    List,
    Proposal,
    File(u64, Fault),
}

// The sequences and the channels have room for one more than is judged by, which tells that there are more. Where no channel is
// proposed, our own proposal is wanted.
#[derive(Drop)]
pub(crate) struct Question {
    pub(crate) sequences: ArrayVec<u8, 2145>,
    pub(crate) permitted: ArrayVec<u8, 17>,
    pub(crate) proposal: Option<u8>,
    lines: u64,
}

// What stands behind the word that a line starts with, without the carriage return at its end. A line that is too long has nothing.
fn behind<'a>(line: &'a [u8], word: &[u8]) -> Option<&'a [u8]> {
    if LONGEST < line.len() {
        return None;
    }
    let text = line.strip_prefix(word)?;
    Some(text.strip_suffix(b"\r").unwrap_or(text))
}

fn channel_of(word: &[u8]) -> Option<u8> {
    u8::try_from(text::decimal_of(word)?).ok()
}

fn is_passed_over(text: &[u8]) -> bool {
    text.iter().all(|c| *c == b' ') || text.starts_with(b"#")
}

impl Question {
    pub(crate) fn new() -> Question {
        Question {
            sequences: ArrayVec::new(),
            permitted: ArrayVec::new(),
            proposal: None,
            lines: 0,
        }
    }

    pub(crate) fn clear(&mut self) {
        self.sequences.clear();
        self.permitted.clear();
        self.proposal = None;
        self.lines = 0;
    }

    // A channel that has no room is one of too many, which the channels before it tell already.
    pub(crate) fn permit(&mut self, line: &[u8]) -> Result<(), Bad> {
        let list = behind(line, b"permitted ").ok_or(Bad::List)?;
        if text::same(list, b"-") {
            return Ok(());
        }
        for word in list.split(|c| *c == b',') {
            let channel = channel_of(word).ok_or(Bad::List)?;
            let _ = self.permitted.try_push(channel);
        }
        Ok(())
    }

    fn propose(&mut self, line: &[u8]) -> Result<(), Bad> {
        let word = behind(line, b"proposal ").ok_or(Bad::Proposal)?;
        self.proposal = if text::same(word, b"-") {
            None
        } else {
            Some(channel_of(word).ok_or(Bad::Proposal)?)
        };
        Ok(())
    }

    // A sequence that has no room is one of too many, which the sequences before it tell already. The longest line has 4099 bytes,
    // where it has digits alone.
    fn keep(&mut self, line: &[u8]) -> Result<(), Fault> {
        let text = behind(line, b"value ")
            .or(behind(line, b""))
            .ok_or(Fault::TooLong)?;
        if is_passed_over(text) {
            return Ok(());
        }
        let mut value = [0u8; 4099];
        let n = text::hex_into(&mut value, 0, text)?;
        let (record, _) = ChannelSequenceTLV::read(&value[..n], 0)?;
        let sequence = record.channel_sequence;
        let _ = self.sequences.try_push(sequence.encoding);
        let _ = self.sequences.try_extend_from_slice(&sequence.bytes);
        Ok(())
    }

    pub(crate) fn take(&mut self, line: &[u8]) -> Result<(), Bad> {
        if line.starts_with(b"proposal ") {
            return self.propose(line);
        }
        self.lines = self.lines.wrapping_add(1);
        self.keep(line)
            .map_err(|fault| Bad::File(self.lines, fault))
    }
}
