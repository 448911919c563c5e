//! The tokens of a set's text: names, numbers, reserved words and signs, each with its place.
#![tactic(auto)]

mod law;
mod lexing;
mod places;
mod shapes;
mod space;
mod token;
mod words;

pub use law::{one_tokens, signs_longest};
pub use lexing::tokens;
pub use token::{Token, TokenKind};
pub use words::is_reserved;
