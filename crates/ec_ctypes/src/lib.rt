//! The types of C with their layout and arithmetic, and every tree that passes between the parts of the precompiler:
//! pieces and tokens, C programs, embedded statements, and what the checks find out about them.
#![tactic(auto)]

mod checked;
mod copies;
mod embedded;
mod text;
mod texts;
mod tree;
mod types;
mod views_law;

pub use checked::{Bound, HandlerTable, HostTable, LibName, Place, Sym, Typed};
pub use copies::{
    copy_action, copy_base, copy_decl, copy_dims, copy_expr, copy_exprs, copy_init, copy_param,
    copy_ty, same_ty,
};
pub use embedded::{Action, Cond, Emb, EmbKind, Host, Input, Ins, Item, Outs, Part, TextArg};
pub use text::{Piece, PieceKind, Punct, Tok, Token};
pub use tree::{
    Base, BinOp, Decl, Declarator, Expr, ForParts, Func, Init, Param, Stmt, StmtKind, Top, UnOp,
    Unit,
};
pub use types::{
    Arith, Shape, StructDef, Structs, Ty, conversion_examples, convert, layout, layout_examples,
    member, one_conversion, promote, type_shape, usual,
};
pub use views_law::{list_views_lose_nothing, views_keep_order, views_lose_nothing};
