// How long the lists are that are lent.

// Places of a list lent to path or tree at most: more than the 64 that an answer needs.
pub const MOST_PLACES: usize = 80;

// Places of a list lent to entries at most: one more than the longest entry list has words.
pub const MOST_WORDS: usize = 14932;
