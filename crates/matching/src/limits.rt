// What the tables of this crate have room for.

// How many parties lists have on a side at most.
pub(crate) const MOST: usize = 500;
