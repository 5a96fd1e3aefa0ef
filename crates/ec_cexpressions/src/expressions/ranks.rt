//! Binary operators and their ranks (ISO/IEC 9899:1999, 6.5.5 to 6.5.14).

ghost use Rattle.std.specs.Prelude.{◌≡◌};
ghost use Rattle.ec_grammar.specs.ReadExpressions.{binary_operator, unary_operator, assignment_operator};
ghost use Rattle.ec_cexpressions.specs.Ranks.{rank_view, tighter_than, operator_in};

use ec_ctypes::{BinOp, Punct, UnOp};
use ec_grammar::Kind;

/// The ranks of binary operators, the loosest first.
#[derive(Clone, Copy, Debug, PartialEq, Eq)]
pub enum Rank {
    Or,
    And,
    BitOr,
    BitXor,
    BitAnd,
    Equal,
    Relation,
    Shift,
    Add,
    Multiply,
}

/// A binary operator with its rank.
#[derive(Clone, Copy, Debug)]
pub struct Operator {
    pub rank: Rank,
    pub op: BinOp,
}

/// The next tighter rank, or none behind the tightest.
pub fn tighter(rank: Rank) -> Option<Rank>
    ensures { result ≡ tighter_than rank }
{
    match rank {
        Rank::Or => Some(Rank::And),
        Rank::And => Some(Rank::BitOr),
        Rank::BitOr => Some(Rank::BitXor),
        Rank::BitXor => Some(Rank::BitAnd),
        Rank::BitAnd => Some(Rank::Equal),
        Rank::Equal => Some(Rank::Relation),
        Rank::Relation => Some(Rank::Shift),
        Rank::Shift => Some(Rank::Add),
        Rank::Add => Some(Rank::Multiply),
        Rank::Multiply => None,
    }
}

fn ranked(rank: Rank, op: BinOp) -> Option<Operator>
    ensures { result ≡ Some (record { rank = rank; op = op }) }
{
    Some(Operator { rank, op })
}

/// The binary operator that a kind is, with its rank.
pub fn operator_of(kind: Kind) -> Option<Operator>
    ensures { result ≡ operator_in kind }
{
    match kind {
        Kind::Mark(Punct::OrOr) => ranked(Rank::Or, BinOp::Or),
        Kind::Mark(Punct::AndAnd) => ranked(Rank::And, BinOp::And),
        Kind::Mark(Punct::Or) => ranked(Rank::BitOr, BinOp::BitOr),
        Kind::Mark(Punct::Caret) => ranked(Rank::BitXor, BinOp::BitXor),
        Kind::Mark(Punct::And) => ranked(Rank::BitAnd, BinOp::BitAnd),
        Kind::Mark(Punct::EqualEqual) => ranked(Rank::Equal, BinOp::Eq),
        Kind::Mark(Punct::NotEqual) => ranked(Rank::Equal, BinOp::Ne),
        Kind::Mark(Punct::Less) => ranked(Rank::Relation, BinOp::Lt),
        Kind::Mark(Punct::Greater) => ranked(Rank::Relation, BinOp::Gt),
        Kind::Mark(Punct::LessEqual) => ranked(Rank::Relation, BinOp::Le),
        Kind::Mark(Punct::GreaterEqual) => ranked(Rank::Relation, BinOp::Ge),
        Kind::Mark(Punct::Shl) => ranked(Rank::Shift, BinOp::Shl),
        Kind::Mark(Punct::Shr) => ranked(Rank::Shift, BinOp::Shr),
        Kind::Mark(Punct::Plus) => ranked(Rank::Add, BinOp::Add),
        Kind::Mark(Punct::Minus) => ranked(Rank::Add, BinOp::Sub),
        Kind::Mark(Punct::Star) => ranked(Rank::Multiply, BinOp::Mul),
        Kind::Mark(Punct::Slash) => ranked(Rank::Multiply, BinOp::Div),
        Kind::Mark(Punct::Percent) => ranked(Rank::Multiply, BinOp::Rem),
        _ => None,
    }
}

/// The operator of this rank that a kind is.
#[tactic(auto, using(crate::proofs::RankOperators::operator_of_rank))]
pub fn rank_operator(rank: Rank, kind: Kind) -> Option<BinOp>
    ensures { result ≡ binary_operator (rank_view rank) kind }
{
    match operator_of(kind) {
        Some(operator) => {
            if operator.rank == rank {
                Some(operator.op)
            } else {
                None
            }
        }
        None => None,
    }
}

/// The unary operator that a kind is (ISO/IEC 9899:1999, 6.5.3.2 and 6.5.3.3).
pub fn unary_operator_of(kind: Kind) -> Option<UnOp>
    ensures { result ≡ unary_operator kind }
{
    match kind {
        Kind::Mark(Punct::And) => Some(UnOp::Addr),
        Kind::Mark(Punct::Star) => Some(UnOp::Deref),
        Kind::Mark(Punct::Plus) => Some(UnOp::Plus),
        Kind::Mark(Punct::Minus) => Some(UnOp::Minus),
        Kind::Mark(Punct::Tilde) => Some(UnOp::Flip),
        Kind::Mark(Punct::Not) => Some(UnOp::Not),
        _ => None,
    }
}

/// The operator of an assignment (ISO/IEC 9899:1999, 6.5.16). `=` has none of its own.
pub fn assignment_operator_of(kind: Kind) -> Option<Option<BinOp>>
    ensures { result ≡ assignment_operator kind }
{
    match kind {
        Kind::Mark(Punct::Assign) => Some(None),
        Kind::Mark(Punct::PlusAssign) => Some(Some(BinOp::Add)),
        Kind::Mark(Punct::MinusAssign) => Some(Some(BinOp::Sub)),
        Kind::Mark(Punct::StarAssign) => Some(Some(BinOp::Mul)),
        Kind::Mark(Punct::SlashAssign) => Some(Some(BinOp::Div)),
        Kind::Mark(Punct::PercentAssign) => Some(Some(BinOp::Rem)),
        Kind::Mark(Punct::ShlAssign) => Some(Some(BinOp::Shl)),
        Kind::Mark(Punct::ShrAssign) => Some(Some(BinOp::Shr)),
        Kind::Mark(Punct::AndAssign) => Some(Some(BinOp::BitAnd)),
        Kind::Mark(Punct::CaretAssign) => Some(Some(BinOp::BitXor)),
        Kind::Mark(Punct::OrAssign) => Some(Some(BinOp::BitOr)),
        _ => None,
    }
}
