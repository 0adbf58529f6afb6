ghost use Rattle.std.specs.Prelude.{◌≡◌};
ghost use Rattle.wire.specs.Said.{told};
ghost use Rattle.wire.specs.Writing as Writing;
ghost use Rattle.wire.specs.Writing.{Put};

use crate::refusal::Refusal;

// The size of what is to be written into a room of len bytes. A writer asks it before its first store.
pub fn within(len: usize, size: Result<usize, Refusal>) -> Result<usize, Refusal>
    ensures { told result ≡ Writing.within len (told size) }
{
    let n = size?;
    if len < n {
        return Err(Refusal::NoRoom);
    }
    Ok(n)
}

// Puts bytes into a lent buffer at a place and gives the place behind them. Where they do not fit, the buffer and the place stay as
// they are.
pub fn put_slice(buf: &mut [u8], at: usize, bytes: &[u8]) -> usize
    ensures { Put buf.old at bytes.now result buf.new }
{
    match at.checked_add(bytes.len()) {
        Some(next) if next <= buf.len() => {
            // By index: the library's copy would ask the board for `memmove`, and it has to provide `memcpy` and `memset` alone.
            for (i, byte) in bytes.iter().enumerate() {
                buf[at + i] = *byte;
            }
            next
        }
        _ => at,
    }
}
