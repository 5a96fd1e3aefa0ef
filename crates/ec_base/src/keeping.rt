ghost use Rattle.std.specs.Prelude.{◌≡◌, IfOk, IfErr, Ok, Err};

/// What is kept, beside what was got. Of an error it is the error alone, and what was kept is let go.
///
/// A value that has to live across a `?` goes through here: `let (left, right) = beside(left, self.operand())?;`. Then one
/// call lets go of it where the `?` leaves, which the checker proves once. A tree that is live at the `?` itself is let
/// go of variant by variant there, and again at each further `?`.
pub fn beside<T: Drop, U, F>(kept: T, got: Result<U, F>) -> Result<(T, U), F>
    ensures value { IfOk result (λ both. got ≡ Ok both.1) }
    ensures same { IfOk result (λ both. both.0 ≡ kept) }
    ensures error { IfErr result (λ e. got ≡ Err e) }
{
    match got {
        Ok(found) => Ok((kept, found)),
        Err(error) => Err(error),
    }
}
