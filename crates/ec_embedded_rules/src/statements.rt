//! Embedded statements and directives.
#![tactic(auto, using(ec_scopes::proofs::Steps::noting), unfolding(ec_typing_defs::specs::Worlds::chain, ec_typing_defs::specs::Worlds::pure))]

ghost use Rattle.std.specs.Prelude.{◌≡◌, ◌++◌, Some, map, slice_get};
ghost use Rattle.ec_ctypes.specs.views.Embedded.{emb_view};
ghost use Rattle.ec_embedded_rules.specs.Around.{around_view};
ghost use Rattle.ec_embedded_rules.specs.parts.Views.{reference_view};
ghost use Rattle.ec_scopes.specs.Entries.{place_view};
ghost use Rattle.ec_scopes.specs.Seen.{world_of, Does};
ghost use Rattle.ec_typing_defs.specs.statement_parts.References.{all_names, names_of_option};
ghost use Rattle.ec_typing_defs.specs.statement_parts.Cursors.{declare_opened};
ghost use Rattle.ec_typing_defs.specs.Embedded as embedded;
ghost use Rattle.ec_typing_defs.specs.Programs as programs;
ghost use Rattle.ec_typing_defs.specs.Statements as rule;

use crate::actions::handlers_rule;
use crate::parts::{Reference, Statements, is_directive, references};
use crate::references::references_rule;
use crate::surroundings::Around;
use crate::variables::denoted;
use ec_base::{FaultKind, OutOfMemory};
use ec_ctypes::Emb;
use ec_scopes::{Checker, Place, Table};

// Keeps what the variables in these references denote, and those of the cursor that the statement opens.
#[tactic(auto, using(ec_scopes::proofs::Steps::noting), unfolding(ec_typing_defs::specs::Worlds::change, ec_typing_defs::specs::Embedded::denote))]
fn denote(
    checker: &mut Checker,
    all: &Statements<'_>,
    n: u32,
    e: &Emb,
    in_it: &[Reference<'_>],
) -> Result<(), OutOfMemory>
    ensures { Does (λ u. u) (embedded.denote (all_names (map reference_view in_it.now)
        ++ names_of_option (declare_opened (map emb_view all.now) n (emb_view e.now)))
        (world_of checker.old)) checker.old result checker.new }
{
    let numbers = denoted(checker, all, n, e, in_it)?;
    checker.add_denoted(numbers)
}

// An embedded statement of this number. F29 for a directive that is the body of `if`, `else`, a loop or a label.
fn embedded_rule(
    checker: &mut Checker,
    a: Around<'_>,
    at: Place,
    n: u32,
    e: &Emb,
) -> Result<(), OutOfMemory>
    ensures { Does (λ u. u) (embedded.embedded_rule (map emb_view a.entry.embedded.now)
        a.entry.is_body a.entry.in_loop a.entry.labels.now (place_view at) n (emb_view e.now)
        (world_of checker.old)) checker.old result checker.new }
{
    checker.demand(at, FaultKind::F29, !(a.is_body && is_directive(e)));
    let in_it = references(checker.alloc(), e)?;
    references_rule(checker, at, in_it.as_slice())?;
    denote(checker, a.embedded, n, e, in_it.as_slice())?;
    handlers_rule(checker, a, at, e)
}

/// The embedded statement of this number, if there is one.
pub fn embedded_at(
    checker: &mut Checker,
    a: Around<'_>,
    at: Place,
    n: u32,
) -> Result<(), OutOfMemory>
    ensures { Does (λ u. u) (rule.embedded_at (around_view a.entry) (place_view at) n
        (slice_get (map emb_view a.entry.embedded.now) n) (world_of checker.old))
        checker.old result checker.new }
{
    match a.embedded.get(n) {
        Some(e) => embedded_rule(checker, a, at, n, e),
        None => Ok(()),
    }
}

// A directive outside of functions, which is a place.
fn outside_rule(
    checker: &mut Checker,
    all: &Statements<'_>,
    n: u32,
    e: &Emb,
) -> Result<(), OutOfMemory>
    ensures { Does (λ u. u) (programs.directive_rule (map emb_view all.now) n
        (Some (emb_view e.now)) (world_of checker.old)) checker.old result checker.new }
{
    let at = checker.place(e.line)?;
    let labels = Table::new(checker.alloc());
    let around = Around {
        embedded: all,
        is_body: false,
        in_loop: false,
        labels: &labels,
        result: &None,
    };
    embedded_rule(checker, around, at, n, e)
}

/// The directive of this number outside of functions, if there is one.
pub fn directive_rule(
    checker: &mut Checker,
    all: &Statements<'_>,
    n: u32,
) -> Result<(), OutOfMemory>
    ensures { Does (λ u. u) (programs.directive_rule (map emb_view all.now) n
        (slice_get (map emb_view all.now) n) (world_of checker.old))
        checker.old result checker.new }
{
    match all.get(n) {
        Some(e) => outside_rule(checker, all, n, e),
        None => Ok(()),
    }
}
