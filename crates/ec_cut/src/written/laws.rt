//! Cutting and writing are inverse to each other (`calls_are_cut_back` of `ec_arguments` is the other half).

ghost use Rattle.std.specs.Prelude.{Bool};
ghost use Rattle.ec_cut.specs.written.Laws.{AreWritten};

/// A list of arguments that is cut is what is written for the call that it is cut into. So each list is at most one call,
/// and each call has one list.
pub fn calls_are_written<A>()
    ensures { (is_text : A → Bool) → AreWritten is_text }
{}
