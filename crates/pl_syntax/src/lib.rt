//! The language PL as text: its statements, its reader and its printer.
//!
//! The six public modules are what another language is read with: how a text is read, its tokens, the next token, readers of a few tokens, what a language
//! says of its statements, and the reader of statements with their bodies.
//!
//! It stands on `armus_base`. Its rows are in `tests_text` (`syntax`, `printed`, `statements`).
#![tactic(auto)]

mod ends;
pub mod expect;
mod fault;
mod laws;
pub mod lexer;
mod limits;
mod name;
pub mod nested;
mod offsets;
mod printer;
mod reader;
mod round_trip;
pub mod scan;
pub mod statement;
pub mod token;
mod tree;
mod word;

pub use ends::body_ends;
pub use fault::{CANNOT_STAND, NO_NUMBER, NO_TOKEN, ParseEnd, SyntaxFault, TOO_DEEP, TOO_LONG};
pub use laws::{
    printed_is_text, text_has_free_lines, text_has_one_fault, text_has_one_list_of_offsets,
    text_has_one_tree, text_has_tree_or_fault, texts_are_spaced, tree_fixes_body,
};
pub use limits::{MAX_DIGITS, MAX_NAME_BYTES, MAX_NUMBER, MAX_OPEN_BRACES, MAX_PARSED_BYTES};
pub use name::Name;
pub use offsets::statement_offsets;
pub use printer::print;
pub use reader::parse;
pub use round_trip::print_and_parse;
pub use tree::{Body, Program, Stmt};
