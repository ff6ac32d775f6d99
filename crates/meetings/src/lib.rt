// The meeting of an end (01, "Sets, filling and splitting": "At an end, the output u meets the wanted w"; 001, definition 36): the leftmost difference of two ranges of the heap, the
// bindings that remove it, applied to entries and non-equalities, and the line that is left.
#![tactic(auto)]

pub mod binding;
pub mod class;
pub mod difference;
pub mod line;
pub mod room;
pub mod unifier;
