// Lists of bounded length that are kept by value: they need nothing from the heap, and are copied as numbers are.
#![tactic(auto)]

pub mod short;
