// An item by its numbers: the place of its type byte in the tail, its type, and the length of its value,
// which starts 3 bytes behind the place.
#[derive(Clone, Copy, Debug, PartialEq, Eq, Hash, Default)]
pub struct Item {
    pub at: usize,
    pub tlv_type: u8,
    pub length: usize,
}

// What stands at a place of the tail. It is no `Result` of an `Option`: the end of the tail and a cut are two answers, and
// neither is a refusal (`step_at`).
#[derive(Clone, Copy, Debug, PartialEq, Eq, Hash)]
pub enum Step {
    // An item, and the place behind its value.
    Item(Item, usize),
    // The end of the tail.
    Whole,
    // No whole item; the place is the one that was asked.
    Cut(usize),
}

// How the walk ends. It is no `Result`: a cut is an answer here too, and no refusal (`end_report`).
#[derive(Clone, Copy, Debug, PartialEq, Eq, Hash)]
pub enum End {
    // At the end of the tail, after so many items.
    Whole(usize),
    // At a place where the tail is cut, after so many items.
    Cut(usize, usize),
}
