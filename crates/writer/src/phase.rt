// What a writer waits for, and the calls on it.

#[derive(Clone, Copy, PartialEq, Eq, Debug)]
pub enum Phase {
    WaitsForKey,
    WaitsForValue,
    Finished,
}

// Not the calls themselves: one match on what the writer waits for and on this says which call is refused.
#[derive(Clone, Copy, PartialEq, Eq, Debug)]
pub(crate) enum Kind {
    Insert,
    InsertKey,
    InsertValue,
    Finish,
}
