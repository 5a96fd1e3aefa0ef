//! The action that holds at a statement, found by halves.

ghost use Rattle.std.specs.Prelude.{◌≡◌, ℕ, true, false, ◌≤◌, ◌<◌, List as Sequence, map, length, take, drop, option_map};
ghost use Rattle.std.specs.List.{list_all, list_any};
ghost use Rattle.std.specs.Option.{option_copied};
ghost use Rattle.ec_ctypes.specs.trees.Checked.{MarkData};
ghost use Rattle.ec_ctypes.specs.views.Checked.{handlers_view, mark_view};
ghost use Rattle.ec_ctypes.specs.views.Embedded.{action_view};
ghost use Rattle.ec_typing_defs.specs.statement_parts.Handlers.{action_among};
ghost use Rattle.ec_whenever.specs.Chosen.{last_action};
ghost use Rattle.ec_whenever.specs.Tables as spec;
ghost use Rattle.ec_whenever.specs.Tables.{is_sorted};

use crate::table::{Mark, same_cond};
use ec_ctypes::{Action, Cond, HandlerTable};

/// Which action holds at a statement.
pub trait HandlerLookup {
    /// Every WHENEVER, with its place.
    ghost marks: { Self → Sequence MarkData };

    /// The action of the last WHENEVER for the condition before this place in the text (PostgreSQL manual, "Setting
    /// Callbacks"). `None` comes exactly where there is none, and the program goes on then. It takes no memory.
    fn at(&self, place: u32, cond: Cond) -> Option<&Action>
        requires { is_sorted (marks self.now) ≡ true }
        ensures { option_map action_view (option_copied result)
            ≡ action_among (marks self.now) place cond };
}

/// The number of a condition in the order of a table.
fn cond_rank(cond: Cond) -> u8
    ensures { result ≡ spec.cond_rank cond }
{
    match cond {
        Cond::NotFound => 0,
        Cond::Warning => 1,
        Cond::Error => 2,
    }
}

/// Whether the mark comes before the place among those for the condition.
fn comes_before(mark: &Mark, place: u32, cond: Cond) -> bool
    ensures { result ≡ spec.comes_before place cond (mark_view mark.now) }
{
    let rank = cond_rank(mark.1);
    let wanted = cond_rank(cond);
    rank < wanted || (rank == wanted && mark.0 < place)
}

/// How many marks come before the place among those for the condition.
fn count_before(marks: &[Mark], place: u32, cond: Cond) -> usize
    requires { is_sorted (map mark_view marks.now) ≡ true }
    ensures most { result ≤ length marks.now }
    ensures before { list_all (spec.comes_before place cond) (take result (map mark_view marks.now))
        ≡ true }
    ensures behind { list_any (spec.comes_before place cond) (drop result (map mark_view marks.now))
        ≡ false }
{
    let mut low = 0;
    let mut high = marks.len();
    while low < high {
        let middle = low + (high - low) / 2;
        if comes_before(&marks[middle], place, cond) {
            low = middle + 1;
        } else {
            high = middle;
        }
    }
    low
}

/// The action of the last mark, if it is for the condition.
fn last_action(marks: &[Mark], cond: Cond) -> Option<&Action>
    ensures { option_map action_view (option_copied result)
        ≡ last_action cond (map mark_view marks.now) }
{
    match marks {
        [] => None,
        [.., last] => {
            if same_cond(cond, last.1) {
                Some(&last.2)
            } else {
                None
            }
        }
    }
}

impl HandlerLookup for HandlerTable {
    ghost marks = { λ table. handlers_view table };

    fn at(&self, place: u32, cond: Cond) -> Option<&Action> {
        let marks = self.marks.as_slice();
        let before = count_before(marks, place, cond);
        last_action(&marks[..before], cond)
    }
}
