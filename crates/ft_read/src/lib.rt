//! The cursor over a text's tokens, and the reading of its small parts: words, signs, names, numbers, operators, bounds and kinds, each
//! with the limits that its tokens may pass.
#![tactic(auto)]

mod bounds;
mod choices;
mod cursor;
mod lexeme;
mod limits;
mod operators;
mod parts;
mod simple;
mod stop;
mod words;

pub use bounds::{bound, kind, plain_bound, upper, value};
pub use choices::{
    is_map, is_side, is_var_word, read_map, read_moment, read_side, read_start, read_var_word,
};
pub use cursor::Cursor;
pub use lexeme::Lexeme;
pub use limits::Limits;
pub use operators::{Precedence, is_operator, join, read_operator};
pub use parts::{Operator, SectionAt, Site};
pub use simple::{is_simple, read_simple};
pub use stop::{LimitWord, Pass, Stop};
pub use words::{counted_name, name, number, sign, word};
