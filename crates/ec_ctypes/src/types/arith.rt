/// An integer type. `char` is signed, and `char` and `signed char` are one type.
#[derive(Clone, Copy, Debug, PartialEq, Eq)]
pub enum Arith {
    Bool,
    Char,
    UChar,
    Short,
    UShort,
    Int,
    UInt,
    Long,
    ULong,
    LLong,
    ULLong,
}

impl Arith {
    ghost use Rattle.std.specs.Prelude.{◌≡◌};
    ghost use Rattle.ec_ctypes.specs.Arithmetic.{is_signed, width, least, greatest, represents_all, rank, unsigned_type};

    /// Whether values may be negative (ISO/IEC 9899:1999, 6.2.5).
    pub fn is_signed(self) -> bool
        ensures { result ≡ is_signed self }
    {
        matches!(
            self,
            Arith::Char | Arith::Short | Arith::Int | Arith::Long | Arith::LLong
        )
    }

    /// How many bits say what a value is, with its sign (ISO/IEC 9899:1999, 6.2.6.2): 1 of `_Bool`, 8 to 64 of the others.
    pub fn width(self) -> u32
        ensures { result ≡ width self }
    {
        match self {
            Arith::Bool => 1,
            Arith::Char | Arith::UChar => 8,
            Arith::Short | Arith::UShort => 16,
            Arith::Int | Arith::UInt => 32,
            Arith::Long | Arith::ULong | Arith::LLong | Arith::ULLong => 64,
        }
    }

    /// The least value.
    pub fn least(self) -> i128
        ensures { result ≡ least self }
    {
        if self.is_signed() {
            -(1 << (self.width() - 1))
        } else {
            0
        }
    }

    /// The greatest value.
    pub fn greatest(self) -> i128
        ensures { result ≡ greatest self }
    {
        if self.is_signed() {
            (1 << (self.width() - 1)) - 1
        } else {
            (1 << self.width()) - 1
        }
    }

    /// Whether each value of the other type is one of this.
    pub fn represents_all(self, other: Arith) -> bool
        ensures { result ≡ represents_all self other }
    {
        self.least() <= other.least() && other.greatest() <= self.greatest()
    }

    /// The conversion rank (ISO/IEC 9899:1999, 6.3.1.1), where `_Bool` has 0 and `long long` has 5.
    pub fn rank(self) -> u32
        ensures { result ≡ rank self }
    {
        match self {
            Arith::Bool => 0,
            Arith::Char | Arith::UChar => 1,
            Arith::Short | Arith::UShort => 2,
            Arith::Int | Arith::UInt => 3,
            Arith::Long | Arith::ULong => 4,
            Arith::LLong | Arith::ULLong => 5,
        }
    }

    /// The unsigned type that corresponds to this, or this where it is unsigned (ISO/IEC 9899:1999, 6.2.5).
    pub fn to_unsigned(self) -> Arith
        ensures { result ≡ unsigned_type self }
    {
        match self {
            Arith::Char => Arith::UChar,
            Arith::Short => Arith::UShort,
            Arith::Int => Arith::UInt,
            Arith::Long => Arith::ULong,
            Arith::LLong => Arith::ULLong,
            unsigned => unsigned,
        }
    }
}
