// The calls by their names.
use crate::buffers::Buffers;
use crate::output::{Answered, Fault, Output};
use crate::value::among;
use crate::words::Words;
use crate::{
    channels, constants, data_path, frames, items, judging, lines, records, searches, sequences,
    synchronization,
};

// Each module has a table of the calls that it answers: one table of all calls would need a case for each module, and an arm for
// each case. A call is a case of its module's enum, and the tables hold no functions: calls take their arguments in different
// ways, so that each would be a function of one shape, which is no plainer than an arm. The words, the buffers and the output are
// no struct: a call uses the words up, and borrows from the buffers what it hands to the output. A question without a fault shows
// its answer, and one with a fault shows nothing.
pub(crate) fn answer(
    name: &[u8],
    words: Words<'_>,
    buffers: &mut Buffers,
    out: &mut Output,
) -> Answered {
    if let Some(call) = among(&frames::CALLS, name) {
        return frames::answer(call, words, buffers, out);
    }
    if let Some(call) = among(&data_path::CALLS, name) {
        return data_path::answer(call, words, buffers, out);
    }
    if let Some(call) = among(&sequences::CALLS, name) {
        return sequences::answer(call, words, buffers, out);
    }
    if let Some(call) = among(&records::CALLS, name) {
        return records::answer(call, words, buffers, out);
    }
    if let Some(call) = among(&channels::CALLS, name) {
        return channels::answer(call, words, out);
    }
    if let Some(call) = among(&items::CALLS, name) {
        return items::answer(call, words, buffers, out);
    }
    if let Some(call) = among(&searches::CALLS, name) {
        return searches::answer(call, words, buffers, out);
    }
    if let Some(call) = among(&judging::CALLS, name) {
        return judging::answer(call, words, buffers, out);
    }
    if let Some(call) = among(&lines::CALLS, name) {
        return lines::answer(call, words, buffers, out);
    }
    match name {
        b"synchronization_read" => synchronization::read(words, buffers, out),
        b"constants" => constants::answer(words, out),
        _ => Err(Fault::BadQuestion),
    }
}
