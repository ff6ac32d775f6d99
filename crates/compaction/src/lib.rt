// Compaction: where the heap is nearly full, the values in use are put together, one behind the other. What the functions come to is defined in specs/.
#![tactic(auto)]

pub mod compact;
