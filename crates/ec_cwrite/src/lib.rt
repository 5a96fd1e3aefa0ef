//! The written C of a program: each tree is put at the end of a text, as `ec_writing_defs` has it.
#![tactic(auto)]

mod expressions;
mod marks;
mod programs;
mod statements;
mod text;

pub use expressions::{
    push_base, push_comma, push_decl, push_declarators, push_dims, push_expr, push_stars,
};
pub use programs::{push_include_top, push_param_name, write};
pub use statements::{push_kind, push_semicolon};
pub use text::{push_blank, push_line, push_line_end, push_mark, push_word};
