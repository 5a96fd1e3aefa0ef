//! Bodies of functions (ISO/IEC 9899:1999, 6.9.1).
#![tactic(auto, unfolding(ec_resolving_defs::specs::Storage::chain, ec_resolving_defs::specs::Storage::pure, ec_resolving_defs::specs::Storage::checks, ec_resolving_defs::specs::Storage::stored, ec_resolving_defs::specs::Storage::arrange))]

ghost use Rattle.std.specs.Prelude.{◌≡◌, [], Some};
ghost use Rattle.ec_code.specs.Views.{statements_view};
ghost use Rattle.ec_ctypes.specs.views.Stmts.{stmts_view};
ghost use Rattle.ec_resolve_forms.specs.Seen.{from, Reaches};
ghost use Rattle.ec_resolving_defs.specs.Programs.{body_rule};
ghost use Rattle.ec_resolving_defs.specs.Statements as rule;
ghost use Rattle.ec_resolving_defs.specs.Storage.{in_block};
ghost use Rattle.ec_scopes.specs.Entries.{type_view};
ghost use Rattle.ec_resolve_statements.specs.Around.{around_view};
ghost use Rattle.ec_resolve_statements.specs.Bodies.{body_view, some_body_view};

use crate::surroundings::Around;
use crate::walk::statements_within;
use ec_base::{List, OutOfMemory};
use ec_code::{ObjectSize, Statement};
use ec_ctypes::{Stmt, Ty};
use ec_resolve_forms::Resolver;
use ec_resolve_parts::{labels_of, objects_in_all};

/// How many levels of a tree are walked. What nests deeper would take more stack than there may be, and counts as want of
/// memory; a tree that is read has at most 64 levels of nesting.
const LEVELS: u32 = 1_000;

/// A block: the sizes of its objects, and its statements.
#[derive(Drop)]
pub struct Body {
    pub objects: List<ObjectSize>,
    pub statements: List<Statement>,
}

/// The resolved forms of statements, one after the other, of a program without embedded statements (ISO/IEC 9899:1999, 6.8).
pub fn statements(
    resolver: &mut Resolver,
    a: Around<'_>,
    ss: &[Stmt],
) -> Result<List<Statement>, OutOfMemory>
    ensures { Reaches statements_view
        (from (rule.statements (around_view a.entry) (stmts_view ss.now)) resolver.old)
        result resolver.new }
{
    statements_within(resolver, a, ss, LEVELS)
}

/// The statements in a block of their own: the sizes of its objects, and their forms.
fn block_of(resolver: &mut Resolver, a: Around<'_>, ss: &[Stmt]) -> Result<Body, OutOfMemory>
    ensures { Reaches body_view
        (from (in_block (rule.objects_in_all (stmts_view ss.now))
        (rule.statements (around_view a.entry) (stmts_view ss.now))) resolver.old)
        result resolver.new }
{
    let count = objects_in_all(ss)?;
    let outer = resolver.storage.enter_block(count)?;
    let statements = statements(resolver, a, ss)?;
    let objects = resolver.storage.leave_block(outer);
    Ok(Body {
        objects,
        statements,
    })
}

/// The body of a function with a result of this type, if it is known: the sizes of the objects of its block, and its
/// statements, of a program without embedded statements. Its scope is that of the parameters (ISO/IEC 9899:1999, 6.2.1, 4 and
/// 6.9.1).
pub fn function_body(
    resolver: &mut Resolver,
    result_type: &Option<Ty>,
    ss: &[Stmt],
) -> Result<Body, OutOfMemory>
    ensures { Reaches some_body_view
        (from (body_rule [] (type_view result_type.now) (Some (stmts_view ss.now))) resolver.old)
        result resolver.new }
{
    let labels = labels_of(resolver.checker.alloc(), ss)?;
    resolver.checker.no_labels();
    let around = Around {
        labels: &labels,
        result: result_type,
    };
    let made = block_of(resolver, around, ss)?;
    Ok(made)
}
