//! The last length of an array apart from the others.

ghost use Rattle.std.specs.Prelude.{◌≡◌, length, take, drop, ◌-◌};
ghost use Rattle.ec_walk.specs.Dims.{last_length_of};

use ec_ctypes::Expr;

/// The lengths but the last, and the last.
pub(crate) fn last_apart(dims: &[Option<Expr>]) -> (&[Option<Expr>], &[Option<Expr>])
    ensures outer { result.0.now ≡ take (length dims.now - 1) dims.now }
    ensures last { result.1.now ≡ drop (length dims.now - 1) dims.now }
{
    if dims.is_empty() {
        return (dims, dims);
    }
    dims.split_at(dims.len() - 1)
}

/// The length of these, of which there is one or none.
pub(crate) fn last_of(ns: &[Option<u64>]) -> Option<u64>
    ensures { result ≡ last_length_of ns.now }
{
    match ns {
        [n] => *n,
        _ => None,
    }
}
