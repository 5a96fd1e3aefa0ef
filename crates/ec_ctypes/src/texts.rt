//! How marks, operators, symbols and library calls are written.

ghost use Rattle.std.specs.Prelude.{◌≡◌};
ghost use Rattle.ec_ctypes.specs.Texts.{punct_text, unary_text, binary_text, symbol_text, library_text};

use crate::checked::{LibName, Sym};
use crate::text::Punct;
use crate::tree::{BinOp, UnOp};

impl Punct {
    /// How the mark is written.
    pub fn text(self) -> &'static str
        ensures { result.now ≡ punct_text self }
    {
        match self {
            Punct::Arrow => "->",
            Punct::PlusPlus => "++",
            Punct::MinusMinus => "--",
            Punct::ShlAssign => "<<=",
            Punct::ShrAssign => ">>=",
            Punct::Shl => "<<",
            Punct::Shr => ">>",
            Punct::LessEqual => "<=",
            Punct::GreaterEqual => ">=",
            Punct::EqualEqual => "==",
            Punct::NotEqual => "!=",
            Punct::AndAnd => "&&",
            Punct::OrOr => "||",
            Punct::PlusAssign => "+=",
            Punct::MinusAssign => "-=",
            Punct::StarAssign => "*=",
            Punct::SlashAssign => "/=",
            Punct::PercentAssign => "%=",
            Punct::AndAssign => "&=",
            Punct::OrAssign => "|=",
            Punct::CaretAssign => "^=",
            Punct::LeftParen => "(",
            Punct::RightParen => ")",
            Punct::LeftBracket => "[",
            Punct::RightBracket => "]",
            Punct::LeftBrace => "{",
            Punct::RightBrace => "}",
            Punct::Semicolon => ";",
            Punct::Comma => ",",
            Punct::Dot => ".",
            Punct::And => "&",
            Punct::Star => "*",
            Punct::Plus => "+",
            Punct::Minus => "-",
            Punct::Tilde => "~",
            Punct::Not => "!",
            Punct::Slash => "/",
            Punct::Percent => "%",
            Punct::Less => "<",
            Punct::Greater => ">",
            Punct::Caret => "^",
            Punct::Or => "|",
            Punct::Assign => "=",
            Punct::Colon => ":",
        }
    }
}

impl UnOp {
    /// How the operator is written.
    pub fn text(self) -> &'static str
        ensures { result.now ≡ unary_text self }
    {
        match self {
            UnOp::Addr => "&",
            UnOp::Deref => "*",
            UnOp::Plus => "+",
            UnOp::Minus => "-",
            UnOp::Not => "!",
            UnOp::Flip => "~",
        }
    }
}

impl BinOp {
    /// How the operator is written.
    pub fn text(self) -> &'static str
        ensures { result.now ≡ binary_text self }
    {
        match self {
            BinOp::Or => "||",
            BinOp::And => "&&",
            BinOp::BitOr => "|",
            BinOp::BitXor => "^",
            BinOp::BitAnd => "&",
            BinOp::Eq => "==",
            BinOp::Ne => "!=",
            BinOp::Lt => "<",
            BinOp::Gt => ">",
            BinOp::Le => "<=",
            BinOp::Ge => ">=",
            BinOp::Shl => "<<",
            BinOp::Shr => ">>",
            BinOp::Add => "+",
            BinOp::Sub => "-",
            BinOp::Mul => "*",
            BinOp::Div => "/",
            BinOp::Rem => "%",
        }
    }
}

impl Sym {
    /// The symbol's name in C, as `ECPGt_int`.
    pub fn text(self) -> &'static str
        ensures { result.now ≡ symbol_text self }
    {
        match self {
            Sym::Char => "ECPGt_char",
            Sym::UnsignedChar => "ECPGt_unsigned_char",
            Sym::Short => "ECPGt_short",
            Sym::UnsignedShort => "ECPGt_unsigned_short",
            Sym::Int => "ECPGt_int",
            Sym::UnsignedInt => "ECPGt_unsigned_int",
            Sym::Long => "ECPGt_long",
            Sym::UnsignedLong => "ECPGt_unsigned_long",
            Sym::LongLong => "ECPGt_long_long",
            Sym::UnsignedLongLong => "ECPGt_unsigned_long_long",
            Sym::Bool => "ECPGt_bool",
            Sym::Varchar => "ECPGt_varchar",
            Sym::Const => "ECPGt_const",
            Sym::Descriptor => "ECPGt_descriptor",
            Sym::NoIndicator => "ECPGt_NO_INDICATOR",
            Sym::EndOfInputs => "ECPGt_EOIT",
            Sym::EndOfOutputs => "ECPGt_EORT",
            Sym::StatementNormal => "ECPGst_normal",
            Sym::StatementExecute => "ECPGst_execute",
            Sym::StatementExecImmediate => "ECPGst_exec_immediate",
            Sym::StatementOpen => "ECPGst_open",
            Sym::ItemData => "ECPGd_data",
            Sym::ItemIndicator => "ECPGd_indicator",
            Sym::ItemName => "ECPGd_name",
            Sym::ItemType => "ECPGd_type",
            Sym::ItemOctets => "ECPGd_ret_octet",
            Sym::EndOfItems => "ECPGd_EODT",
        }
    }
}

impl LibName {
    /// The function's name in C, as `ECPGdo`.
    pub fn text(self) -> &'static str
        ensures { result.now ≡ library_text self }
    {
        match self {
            LibName::Do => "ECPGdo",
            LibName::Connect => "ECPGconnect",
            LibName::Disconnect => "ECPGdisconnect",
            LibName::SetConn => "ECPGsetconn",
            LibName::SetCommit => "ECPGsetcommit",
            LibName::Trans => "ECPGtrans",
            LibName::Prepare => "ECPGprepare",
            LibName::Deallocate => "ECPGdeallocate",
            LibName::AllocateDesc => "ECPGallocate_desc",
            LibName::DeallocateDesc => "ECPGdeallocate_desc",
            LibName::GetDescHeader => "ECPGget_desc_header",
            LibName::SetDescHeader => "ECPGset_desc_header",
            LibName::GetDesc => "ECPGget_desc",
            LibName::SetDesc => "ECPGset_desc",
        }
    }
}
