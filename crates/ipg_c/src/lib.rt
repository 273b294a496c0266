//! `ipg` in the program that needs it: the whole command line over words and files in memory.
//! A static library whose exports C can call. `lib/include/ipg.h` declares them.
#![tactic(auto)]

mod answer;
mod files;
mod page;
mod showing;
mod trees;
mod words;

pub use answer::ipg_run;
pub use files::File;
pub use trees::{ipg_names, ipg_trees};
pub use words::Word;
