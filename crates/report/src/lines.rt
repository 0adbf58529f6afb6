// The lines by their shape. The words of each and the most digits of its numbers leave room in 128 bytes.
ghost use Rattle.std.specs.Prelude.{◌+◌, ◌≤◌, ◌≡◌, ◌++◌, length};
ghost use Rattle.text.specs.Text.{text, decimal, named};
ghost use Rattle.report.specs.Lines.{header_line};
ghost use Rattle.report.specs.Shown.{PutWithRoom};

use crate::put::{put_named, put_text};
use action_frame::{AWDLActionFrame, tx_delta};

// The library converts no `usize` to a `u64` by `From`, so this is a cast. The contract gives its callers the equation that they would
// have to prove of it.
pub(crate) fn of_usize(x: usize) -> u64
    ensures { result ≡ x }
{
    x as u64
}

// A line of a word and a number.
pub(crate) fn one_number(out: &mut [u8; 128], word: &[u8], n: u64) -> usize
    requires { length word.now ≤ 20 }
    ensures { PutWithRoom out.old 0 (word.now ++ decimal n ++ text "\n") result out.new }
{
    let at = put_named(out, 0, word, n);
    put_text(out, at, b"\n")
}

// A line of two.
pub(crate) fn two_numbers(out: &mut [u8; 128], first: &[u8], m: u64, second: &[u8], n: u64) -> usize
    requires { length first.now + length second.now ≤ 40 }
    ensures { PutWithRoom out.old 0 (first.now ++ decimal m ++ (second.now ++ decimal n) ++ text "\n") result out.new }
{
    let at = put_named(out, 0, first, m);
    let at = put_named(out, at, second, n);
    put_text(out, at, b"\n")
}

pub(crate) fn header(out: &mut [u8; 128], f: AWDLActionFrame) -> usize
    ensures { PutWithRoom out.old 0 (header_line f) result out.new }
{
    let at = put_named(out, 0, b"frame subtype=", u64::from(f.subtype));
    let at = put_named(out, at, b" phy=", u64::from(f.phy_tx_time.0));
    let at = put_named(out, at, b" target=", u64::from(f.target_tx_time.0));
    let gap = u64::from(tx_delta(f.phy_tx_time, f.target_tx_time));
    let at = put_named(out, at, b" delta=", gap);
    put_text(out, at, b"\n")
}

// The place is counted from the start of the frame.
pub(crate) fn item(out: &mut [u8; 128], place: u64, tlv_type: u64, len: u64) -> usize
    ensures { PutWithRoom out.old 0 (named "item at=" place ++ named " type=" tlv_type ++ named " length=" len ++ text "\n") result out.new }
{
    let at = put_named(out, 0, b"item at=", place);
    let at = put_named(out, at, b" type=", tlv_type);
    let at = put_named(out, at, b" length=", len);
    put_text(out, at, b"\n")
}
