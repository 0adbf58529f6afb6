// The bytes that a question gives to a call, and those that it lends to it. Each buffer has room for the longest argument.
#[derive(Drop)]
pub(crate) struct Buffers {
    pub(crate) given: [u8; 66000],
    pub(crate) lent: [u8; 66000],
}

impl Buffers {
    pub(crate) fn new() -> Buffers {
        Buffers {
            given: [0; 66000],
            lent: [0; 66000],
        }
    }
}
