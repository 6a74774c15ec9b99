// The pull table's entry.

// How far a frame that was pulled has come.
#[derive(Clone, Copy, PartialEq, Eq, Debug)]
pub enum State {
    // nothing pulled here yet; the entry's frame is 0
    Empty,
    // pulled, and with a viewer
    Out,
    Good,
    Bad,
}

// A struct, and no Option of one: a table is lent, and callers may have left any frame beside Empty.
#[derive(Clone, Copy, PartialEq, Eq, Debug)]
pub struct Entry {
    pub frame: u32,
    pub state: State,
}

// Nothing pulled here yet.
pub const BLANK: Entry = Entry {
    frame: 0,
    state: State::Empty,
};
