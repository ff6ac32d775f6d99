// What the programs share that read two files and print a listing or a run: a file is read whole, a text is printed page by page.
#![tactic(auto)]

pub mod files;
pub mod output;
pub mod page;
