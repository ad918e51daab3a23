// The lexical rules of scenarios: lines, words, texts and numbers.
#![tactic(auto)]

mod line;
mod numbers;
mod reading;
mod writing;

pub use line::{Word, Words, is_blank, is_word};
pub use numbers::number;
pub use reading::{TextError, decode};
pub use writing::encode;
