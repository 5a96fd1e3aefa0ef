//! How a source is read: its lines, pieces, tokens and syntax.
#![tactic(auto)]

mod first_examples;
mod keyword_laws;
mod piece_examples;
mod piece_laws;
mod reading_laws;
mod syntax_examples;
mod syntax_laws;
mod token_examples;
mod token_laws;

pub use first_examples::{
    first_is_first, order_examples, tokens_stop_at_the_first, too_long_comes_first,
};
pub use keyword_laws::keywords_are_a_table;
pub use piece_examples::{fault_examples, letter_examples, text_examples};
pub use piece_laws::{one_splitting, pieces_are_read};
pub use reading_laws::{each_text_is_read, reading_examples};
pub use syntax_examples::{
    declaration_examples, expression_examples, nesting_examples, statement_examples,
};
pub use syntax_laws::{answer_laws, grammar_laws};
pub use token_examples::{
    character_examples, embedded_examples, integer_examples, left_out_examples, limit_examples,
    line_examples, mark_examples, source_examples, sql_examples, string_examples, written_examples,
};
pub use token_laws::{
    items_are_read, matches_are_read, parts_are_read, statement_tokens_are_read, tokens_are_read,
};
