//! How long parts and tables of constants may be, so that instructions can name their places.

/// Of the instructions of a part, and of the constants of an entry, there are no more: their places fit 16 bits.
pub const MOST_PLACES: usize = 65_535;
