// The fields of records, each with its name. One list of them both takes a record from a question and shows it in an answer.
use crate::output::Fault;
use crate::value::Value;
use tlvs::Item;

// What the fields pass through in their order: the words of a question, which give them, or an answer, which shows them.
pub(crate) trait Pass {
    fn pass<T: Value>(&mut self, name: &[u8], value: T) -> Result<T, Fault>;
}

// Each impl lists the fields of its own type. Where two lists are alike, that is chance: each type has to be built by its own name.
pub(crate) trait Record: Copy + Default {
    fn through<P: Pass>(self, fields: &mut P) -> Result<Self, Fault>;
}

impl Record for Item {
    fn through<P: Pass>(self, fields: &mut P) -> Result<Item, Fault> {
        Ok(Item {
            at: fields.pass(b"at=", self.at)?,
            tlv_type: fields.pass(b"type=", self.tlv_type)?,
            length: fields.pass(b"length=", self.length)?,
        })
    }
}
