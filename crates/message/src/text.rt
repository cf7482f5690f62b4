// Short texts, kept by value.
use short::short::Short;

// The most characters that a text kept here has: those of an account, the longest.
pub const LONGEST_TEXT: usize = 35;

// A text of at most 35 characters.
pub type ShortText = Short<u8, LONGEST_TEXT>;
