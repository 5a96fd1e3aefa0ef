//! What a call tells in the communication area.

ghost use Rattle.std.specs.Prelude.{◌≡◌};
ghost use Rattle.ec_transfer_defs.specs.Area.{IsArea};
ghost use Rattle.ec_transfer_defs.specs.Codes.{code_of, state_of, text_of_finding};
ghost use Rattle.ec_call_defs.specs.Outcomes.{fresh_area, told_area, warned_area, noticed_area, noticed, counted_area};
ghost use Rattle.ec_runtime.specs.declared.stop.Stop.TheVariants as stops;

use crate::stop::Stop;
use ec_base::Line;
use ec_link::SqlState;
use ec_memory::Store;
use ec_sqlca::{notice, raise, reset, rows, warn};
use ec_transfer_defs::Finding;

/// The area as it is when a statement begins.
#[tactic(auto, unfolding(ec_call_defs::specs::Outcomes::fresh_area))]
pub(crate) fn begin_area(store: &mut Store)
    requires { IsArea store.old }
    ensures area { store.new ≡ fresh_area store.old }
    ensures kept { IsArea store.new }
{
    reset(store);
}

/// A number of rows is told.
#[tactic(auto, unfolding(ec_call_defs::specs::Outcomes::counted_area))]
pub(crate) fn tell_count(store: &mut Store, count: u64)
    requires { IsArea store.old }
    ensures area { store.new ≡ counted_area count store.old }
    ensures kept { IsArea store.new }
{
    rows(store, count);
}

/// A value that was cut is told.
#[tactic(auto, unfolding(ec_call_defs::specs::Outcomes::warned_area))]
pub(crate) fn tell_cut(store: &mut Store)
    requires { IsArea store.old }
    ensures area { store.new ≡ warned_area store.old }
    ensures kept { IsArea store.new }
{
    warn(store);
}

/// A notice of the server is told, if there is one.
#[tactic(auto, unfolding(ec_call_defs::specs::Outcomes::noticed_area))]
pub(crate) fn tell_notice(store: &mut Store, is_given: bool)
    requires { IsArea store.old }
    ensures area { store.new ≡ noticed is_given store.old }
    ensures kept { IsArea store.new }
{
    if is_given {
        notice(store);
    }
}

/// A code with its state and its message ends the call.
#[tactic(auto, unfolding(ec_call_defs::specs::Outcomes::told_area))]
pub(crate) fn tell(
    store: &mut Store,
    line: Line,
    code: i64,
    state: SqlState,
    message: &[u8],
) -> Stop
    requires { IsArea store.old }
    ensures stop { result ≡ stops.Finished }
    ensures area { store.new ≡ told_area code state.0 message.now line.0 store.old }
    ensures kept { IsArea store.new }
{
    raise(store, code, state, message, line);
    Stop::Finished
}

/// What the library finds wrong by itself ends the call.
pub(crate) fn refuse(store: &mut Store, line: Line, finding: Finding) -> Stop
    requires { IsArea store.old }
    ensures stop { result ≡ stops.Finished }
    ensures area { store.new
        ≡ told_area (code_of finding) (state_of finding)
        (text_of_finding finding) line.0 store.old }
    ensures kept { IsArea store.new }
{
    tell(store, line, finding.code(), finding.state(), finding.text())
}
