//! The marks of operators, and how tight operators bind.

ghost use Rattle.std.specs.Prelude.{◌≡◌};
ghost use Rattle.ec_ctypes.specs.views.Exprs.{expr_view};
ghost use Rattle.ec_writing_defs.specs.Expressions.{ranked, rank_of, tighter, height, level, binary_mark, assign_mark, unary_mark, bump_mark};

use ec_ctypes::{BinOp, Expr, Punct, UnOp};

/// The mark of a binary operator.
pub fn mark_of(op: BinOp) -> Punct
    ensures { result ≡ binary_mark op }
{
    match op {
        BinOp::Or => Punct::OrOr,
        BinOp::And => Punct::AndAnd,
        BinOp::BitOr => Punct::Or,
        BinOp::BitXor => Punct::Caret,
        BinOp::BitAnd => Punct::And,
        BinOp::Eq => Punct::EqualEqual,
        BinOp::Ne => Punct::NotEqual,
        BinOp::Lt => Punct::Less,
        BinOp::Gt => Punct::Greater,
        BinOp::Le => Punct::LessEqual,
        BinOp::Ge => Punct::GreaterEqual,
        BinOp::Shl => Punct::Shl,
        BinOp::Shr => Punct::Shr,
        BinOp::Add => Punct::Plus,
        BinOp::Sub => Punct::Minus,
        BinOp::Mul => Punct::Star,
        BinOp::Div => Punct::Slash,
        BinOp::Rem => Punct::Percent,
    }
}

/// The mark of an assignment.
pub fn mark_of_assignment(op: Option<BinOp>) -> Punct
    ensures { result ≡ assign_mark op }
{
    match op {
        Some(BinOp::Add) => Punct::PlusAssign,
        Some(BinOp::Sub) => Punct::MinusAssign,
        Some(BinOp::Mul) => Punct::StarAssign,
        Some(BinOp::Div) => Punct::SlashAssign,
        Some(BinOp::Rem) => Punct::PercentAssign,
        Some(BinOp::Shl) => Punct::ShlAssign,
        Some(BinOp::Shr) => Punct::ShrAssign,
        Some(BinOp::BitAnd) => Punct::AndAssign,
        Some(BinOp::BitXor) => Punct::CaretAssign,
        Some(BinOp::BitOr) => Punct::OrAssign,
        Some(BinOp::Or)
        | Some(BinOp::And)
        | Some(BinOp::Eq)
        | Some(BinOp::Ne)
        | Some(BinOp::Lt)
        | Some(BinOp::Gt)
        | Some(BinOp::Le)
        | Some(BinOp::Ge)
        | None => Punct::Assign,
    }
}

/// The mark of a unary operator.
pub fn mark_of_unary(op: UnOp) -> Punct
    ensures { result ≡ unary_mark op }
{
    match op {
        UnOp::Addr => Punct::And,
        UnOp::Deref => Punct::Star,
        UnOp::Plus => Punct::Plus,
        UnOp::Minus => Punct::Minus,
        UnOp::Not => Punct::Not,
        UnOp::Flip => Punct::Tilde,
    }
}

/// The mark of `++` or `--`.
pub fn mark_of_bump(up: bool) -> Punct
    ensures { result ≡ bump_mark up }
{
    if up {
        Punct::PlusPlus
    } else {
        Punct::MinusMinus
    }
}

/// The height of the loosest operands: the left side of an assignment, and array lengths.
pub const OR: u8 = 1;

/// The height of postfix expressions, which is the greatest.
pub const POSTFIX: u8 = 13;

/// How tight a binary operator binds, which is the height of its left operand.
pub fn rank_height(op: BinOp) -> u8
    ensures { result ≡ height (ranked (rank_of op)) }
{
    match op {
        BinOp::Or => 1,
        BinOp::And => 2,
        BinOp::BitOr => 3,
        BinOp::BitXor => 4,
        BinOp::BitAnd => 5,
        BinOp::Eq | BinOp::Ne => 6,
        BinOp::Lt | BinOp::Gt | BinOp::Le | BinOp::Ge => 7,
        BinOp::Shl | BinOp::Shr => 8,
        BinOp::Add | BinOp::Sub => 9,
        BinOp::Mul | BinOp::Div | BinOp::Rem => 10,
    }
}

/// The height of its right operand: operators join to the left.
pub fn right_height(op: BinOp) -> u8
    ensures { result ≡ height (tighter (rank_of op)) }
{
    match op {
        BinOp::Or => 2,
        BinOp::And => 3,
        BinOp::BitOr => 4,
        BinOp::BitXor => 5,
        BinOp::BitAnd => 6,
        BinOp::Eq | BinOp::Ne => 7,
        BinOp::Lt | BinOp::Gt | BinOp::Le | BinOp::Ge => 8,
        BinOp::Shl | BinOp::Shr => 9,
        BinOp::Add | BinOp::Sub => 10,
        BinOp::Mul | BinOp::Div | BinOp::Rem => 11,
    }
}

/// How tight an expression binds.
pub fn height_of(expr: &Expr) -> u8
    ensures { result ≡ height (level (expr_view expr.now)) }
{
    match expr {
        Expr::Assign(_, _, _) => 0,
        Expr::Binary(op, _, _) => rank_height(*op),
        Expr::Cast(_, _, _) => 11,
        Expr::Unary(_, _) => 12,
        Expr::SizeType(_, _) => 12,
        Expr::SizeExpr(_) => 12,
        Expr::Bump { before, .. } => if *before { 12 } else { 13 },
        Expr::Int(_, _)
        | Expr::Char(_)
        | Expr::Str(_)
        | Expr::Name(_)
        | Expr::Call(_, _)
        | Expr::CallOther(_, _)
        | Expr::Index(_, _)
        | Expr::Member(_, _)
        | Expr::Arrow(_, _) => 13,
    }
}
