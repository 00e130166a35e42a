// The script part: a script's bytes become calls on a board, and what they answer becomes lines.
#![tactic(auto)]

mod grammar;
mod lines;
mod number;
pub mod output;
pub mod run;
pub mod text;
mod word;
