// A text in the making.
use fields::faults::LONGEST;
use short::short::Short;

// What is spelled so far. No text is longer than this, so writing needs nothing from the heap.
pub(crate) type Scratch = Short<u8, LONGEST>;
