// What lines are made of. They are put by these functions and not by `write!`, which promises its bytes only where it succeeds: no
// contract says that it does, and a mark's line is always there.
ghost use Rattle.std.specs.Prelude.{◌+◌, ◌≤◌, ◌++◌, length};
ghost use Rattle.text.specs.Text.{decimal};
ghost use Rattle.report.specs.Shown.{PutWithRoom};

// A word and the number behind it. They are two parameters and no struct, so that a call reads as the line that it writes. No number
// has more than twenty digits.
pub(crate) fn put_named(buf: &mut [u8], at: usize, word: &[u8], n: u64) -> usize
    requires { at + (length word.now + 20) ≤ length buf.old }
    ensures put_with_room { PutWithRoom buf.old at (word.now ++ decimal n) result buf.new }
    ensures upper_bound { result ≤ at + (length word.now + 20) }
{
    let behind_word = wire::put_slice(buf, at, word);
    text::put_decimal(buf, behind_word, n)
}

pub(crate) fn put_text(buf: &mut [u8], at: usize, word: &[u8]) -> usize
    requires { at + length word.now ≤ length buf.old }
    ensures put_with_room { PutWithRoom buf.old at word.now result buf.new }
    ensures upper_bound { result ≤ at + length word.now }
{
    wire::put_slice(buf, at, word)
}
