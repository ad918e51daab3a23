// The answer of a bounded list that is full: nothing was taken in, and nothing changed.
#[derive(Clone, Copy, Debug, PartialEq, Eq)]
pub struct NoPlace;
