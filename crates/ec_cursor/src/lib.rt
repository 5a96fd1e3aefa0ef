//! The tokens that are left of a source, and what every reader of them needs: what they begin, what they hold, lists.
#![tactic(auto)]

mod counts;
mod cursor;
mod kinds;
mod lists;
mod parts;
mod starts;
mod texts;

pub use counts::{Counted, Counts};
pub use cursor::{Cursor, Start};
pub use lists::{Item, list_of, separated};
pub use parts::{ForHead, ForStart, Subexpression};
pub use starts::{
    begins_block_item, begins_declarator, begins_expression, begins_initializer, begins_item,
    begins_postfix_part, begins_statement, begins_subexpression, begins_type,
};
pub use texts::{copy_name, copy_text};
