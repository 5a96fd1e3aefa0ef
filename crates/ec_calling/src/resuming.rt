//! A call, from one request to the next.

ghost use Rattle.std.specs.Prelude.{◌≡◌, ◌≤◌, ◌<◌, ℕ, length, take, IfOk, IsSome, Some, true};
ghost use Rattle.ec_interp.specs.declared.running.library.Progress.TheVariants as progress;
ghost use Rattle.ec_interp.specs.running.Sessions.{AsksOnce, Going, Resumed};
ghost use Rattle.ec_link.specs.Links.{faults_by, talk_by};
ghost use Rattle.ec_link.specs.Rack.{log_of};
ghost use Rattle.ec_runtime.specs.Calling.{Holds};
ghost use Rattle.ec_runtime.specs.Proceeding.{left_of, waiting_of, IsFit};
ghost use Rattle.ec_stopping_defs.specs.Places.{AllWithin};
ghost use Rattle.ec_transfer_defs.specs.Area.{IsArea};
ghost use Rattle.ec_calling.specs.Leading.{Moved};
ghost use Rattle.ec_calling.specs.Making.{going_of, known_of};

use crate::area::has_area;
use crate::making::answered;
use ec_base::{Line, List};
use ec_interp::running::Progress;
use ec_link::{Link, Rack};
use ec_machine::Stop;
use ec_memory::Store;
use ec_runtime::Library;
use std::alloc::Global;

// Whether a call waits with its request, and there is a communication area.
fn is_ready(store: &Store, library: &Library) -> bool
    requires { IsFit library.now }
    ensures waits { result ≡ true → IsSome library.now.under_way }
    ensures area { result ≡ true → IsArea store.now }
{
    match library.pending() {
        Some(_) => has_area(store),
        None => false,
    }
}

// The place that was noted last is kept, if the log grew from this length to that one. Else only the first places are.
fn keep_place(places: &mut List<u64>, count: usize, before: usize, after: usize)
    ensures said { before < after → places.new ≡ places.old }
    ensures unsaid { after ≤ before → places.new ≡ take count places.old }
{
    if before < after {
        return;
    }
    places.truncate(count);
}

// Makes the request that waits, and notes its place in the log. Room for that is taken before.
fn ask(
    alloc: Global,
    store: &mut Store,
    rack: &mut Rack,
    library: &mut Library,
    places: &mut List<u64>,
    line: Line,
) -> Result<Progress, Stop>
    requires area { IsArea store.old }
    requires holds { Holds library.old.connections rack.old }
    requires within { AllWithin (length (log_of rack.old)) places.old }
    requires fits { IsFit library.old }
    requires waits { IsSome library.old.under_way }
    ensures resumed { (g : Going) → going_of library.old ≡ Some g → Resumed g line.0
        store.old (known_of rack.old library.old places.old)
        store.new (known_of rack.new library.new places.new) (going_of library.new) result }
    ensures one { AsksOnce result (known_of rack.old library.old places.old)
        (known_of rack.new library.new places.new) }
    ensures nears { IfOk result (λ p. p ≡ progress.Asks
        → left_of (waiting_of library.new) < left_of (waiting_of library.old)) }
    ensures moved { Moved (talk_by ⟦<dyn Link as Link>⟧) (faults_by ⟦<dyn Link as Link>⟧)
        rack.old library.old places.old rack.new library.new places.new }
    ensures still_holds { Holds library.new.connections rack.new }
    ensures still_within { AllWithin (length (log_of rack.new)) places.new }
    ensures still_fits { IsFit library.new }
{
    let count = places.len();
    let before = rack.log().len();
    match places.push(before as u64) {
        Err(_) => {
            library.abandon();
            Err(Stop::OutOfMemory)
        }
        Ok(()) => {
            let far = library.resume(alloc, store, rack);
            let after = rack.log().len();
            keep_place(places, count, before, after);
            answered(line, far)
        }
    }
}

/// Makes the request that waits, and goes on to the next request of its call or to its end. Its traps are at this line.
///
/// Without a request that waits, or without a communication area, it is left as if there were no memory for it.
pub(crate) fn go_on(
    alloc: Global,
    store: &mut Store,
    rack: &mut Rack,
    library: &mut Library,
    places: &mut List<u64>,
    line: Line,
) -> Result<Progress, Stop>
    requires holds { Holds library.old.connections rack.old }
    requires within { AllWithin (length (log_of rack.old)) places.old }
    requires fits { IsFit library.old }
    ensures resumed { (g : Going) → going_of library.old ≡ Some g → Resumed g line.0
        store.old (known_of rack.old library.old places.old)
        store.new (known_of rack.new library.new places.new) (going_of library.new) result }
    ensures one { AsksOnce result (known_of rack.old library.old places.old)
        (known_of rack.new library.new places.new) }
    ensures nears { IfOk result (λ p. p ≡ progress.Asks
        → left_of (waiting_of library.new) < left_of (waiting_of library.old)) }
    ensures moved { Moved (talk_by ⟦<dyn Link as Link>⟧) (faults_by ⟦<dyn Link as Link>⟧)
        rack.old library.old places.old rack.new library.new places.new }
    ensures still_holds { Holds library.new.connections rack.new }
    ensures still_within { AllWithin (length (log_of rack.new)) places.new }
    ensures still_fits { IsFit library.new }
{
    // Out of reach, which isn't proved: a call waits, and the first object is the area from the beginning.
    if !is_ready(store, library) {
        library.abandon();
        return Err(Stop::OutOfMemory);
    }
    ask(alloc, store, rack, library, places, line)
}
