//! What holds of every call.

ghost use Rattle.std.specs.Prelude.{◌≡◌, Bool, true, Some};
ghost use Rattle.ec_arguments.specs.Arguments.{Cut, name_of};
ghost use Rattle.ec_arguments.specs.Rules.{is_call, cut};
ghost use Rattle.ec_arguments.specs.Writing.{arguments};

/// A call that keeps the rules is cut out of the arguments that are written for it, whatever its pointers are.
pub fn calls_are_cut_back<A>()
    ensures { (is_text : A → Bool) (c : Cut A) → is_call is_text c.call ≡ true
        → cut is_text (name_of c.call) (arguments c) ≡ Some c }
{}
