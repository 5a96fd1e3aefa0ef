//! What a literal and a pointer are.

ghost use Rattle.std.specs.Prelude.{◌≡◌, ℕ, Bool, List as Sequence};

/// What stands for the bytes of a literal in a list of arguments.
pub trait Literal {
    ghost bytes: { Self → Sequence ℕ };

    /// The bytes.
    fn as_slice(&self) -> &[u8]
        ensures { result.now ≡ bytes self.now };
}

impl Literal for &[u8] {
    ghost bytes = { λ text. text.now };

    fn as_slice(&self) -> &[u8] {
        *self
    }
}

/// What stands for a pointer in a list of arguments: an expression where a call is written, an address where it is made.
pub trait Pointer {
    ghost Data: { Type 0 };

    ghost view: { Self → Data };

    ghost leads_to_text: { Data → Bool };

    /// Whether it may lead to a text: a pointer to characters.
    fn is_text(&self) -> bool
        ensures { result ≡ leads_to_text (view self.now) };
}

/// Where only the type of a pointer is known: whether it leads to characters.
impl Pointer for bool {
    ghost use Rattle.std.specs.Prelude.{Bool as Truth};
    ghost use Rattle.ec_cut.specs.ByType.{itself};

    ghost Data = { Truth };

    ghost view = { itself };

    ghost leads_to_text = { itself };

    fn is_text(&self) -> bool {
        *self
    }
}
