// The lines that bilrun prints, put into a buffer: so that what is printed is the text of a definition.
#![tactic(auto)]

pub mod lines;
pub mod text;
