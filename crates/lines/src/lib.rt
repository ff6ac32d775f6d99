// The end of a path (01, "Sets, filling and splitting": "At an end, the output u meets the wanted w"): the line that it gives, in the answer storage behind those before it. What the
// functions come to is defined in specs/.
#![tactic(auto)]

pub mod end;
pub mod line;
