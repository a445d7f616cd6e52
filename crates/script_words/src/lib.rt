//! The lines and the words of a script's text, and what single words mean: names, numbers, types, texts, the parts of lists.
//!
//! Each reader takes the next words of a line and promises what the definition of its words gives.
#![tactic(auto)]

mod fault;
mod line_numbers;
mod lines;
mod names;
pub mod numbers;
mod parts_of_list;
mod texts;
pub mod vocabulary;
pub mod word_forms;
mod words;

pub use fault::{LineErr, ReadErr, beside};
pub use lines::{Line, TextLines, significant_line};
pub use names::Names;
pub use parts_of_list::ListParts;
pub use words::{Token, Words};
