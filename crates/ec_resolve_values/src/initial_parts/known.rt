//! What is known before the program runs (ISO/IEC 9899:1999, 6.6, 9).

ghost use Rattle.std.specs.Prelude.{◌≡◌, ◌∷◌, ◌++◌, IfOk, List as Sequence, map, option_map};
ghost use Rattle.ec_code.specs.Objects.{stored_view};
ghost use Rattle.ec_code.specs.Trees.{leaf_view};
ghost use Rattle.ec_code.specs.Views.{expression_view, full_step_view, full_view, head_view, plain_step_view, plain_view};
ghost use Rattle.ec_memory_defs.specs.Kinds.{kind_type};
ghost use Rattle.ec_resolving_defs.specs.Initializers.{PartData, known_value, parts_known, scalar_part};
ghost use Rattle.ec_values.specs.Words.{word_view};
ghost use Rattle.ec_resolve_values.specs.initial_parts.Known.{known_behind, known_stepped};
ghost use Rattle.ec_resolve_values.specs.initial_parts.Parts.{part_view, parts_view};

use crate::initial_parts::bytes::encoded;
use crate::initial_parts::part::Part;
use ec_base::{List, OutOfMemory};
use ec_bytes::Ptr;
use ec_code::{Expression, Full, FullStep, Head, Leaf, Plain, PlainStep, Stored, Unary};
use ec_memory_defs::Kind;
use ec_values::{Word, convert};
use std::alloc::Global;

/// The value where an expression begins: a constant, or the address of an object.
fn known_leaf(leaf: Leaf) -> Option<Word>
    ensures { option_map word_view result ≡ known_value (leaf_view leaf) }
{
    match leaf {
        Leaf::Object(number) => Some(Word::Address(Ptr((number as u64) << 32))),
        Leaf::Slot(_) => None,
        Leaf::Constant(word) => Some(word),
        Leaf::IntValue(_) => None,
        Leaf::LongValue(_) => None,
        Leaf::Faulty => None,
    }
}

/// The value behind a step: a conversion keeps it known.
fn known_behind(value: Option<Word>, step: &Unary) -> Option<Word>
    ensures { option_map word_view result ≡ known_behind (option_map word_view value) step.now }
{
    match value {
        None => None,
        Some(word) => match step {
            Unary::Convert(_, to) => Some(convert(*to, word)),
            Unary::Member(_) => None,
            Unary::Load(_) => None,
            Unary::Whole(_) => None,
            Unary::Put(_) => None,
            Unary::Negate(_) => None,
            Unary::Flip(_) => None,
            Unary::Not => None,
        },
    }
}

/// The value behind a step of an expression without calls.
fn behind_plain(value: Option<Word>, step: &PlainStep) -> Option<Word>
    ensures { option_map word_view result
        ≡ known_stepped (option_map word_view value) (plain_step_view step.now) }
{
    match step {
        PlainStep::One(step) => known_behind(value, step),
        PlainStep::Two(_, _) => None,
        PlainStep::WithNumber(_, _) => None,
        PlainStep::WithInt(_, _) => None,
        PlainStep::WithLong(_, _) => None,
        PlainStep::ChangeBy(_, _) => None,
    }
}

/// The value behind a step of an expression that holds a call.
fn behind_full(value: Option<Word>, step: &FullStep) -> Option<Word>
    ensures { option_map word_view result
        ≡ known_stepped (option_map word_view value) (full_step_view step.now) }
{
    match step {
        FullStep::One(step) => known_behind(value, step),
        FullStep::Two(_, _) => None,
    }
}

/// The value of an expression without calls.
fn known_plain(plain: &Plain) -> Option<Word>
    ensures { option_map word_view result ≡ known_value (plain_view plain.now) }
{
    let steps = plain.steps.as_slice();
    let mut value = known_leaf(plain.leaf);
    for step in steps {
        value = behind_plain(value, step);
    }
    value
}

/// The value where an expression begins that holds a call or `?:`: that of neither is known.
fn known_head(head: &Head) -> Option<Word>
    ensures { option_map word_view result ≡ known_value (head_view head.now) }
{
    match head {
        Head::Begun(plain) => known_plain(plain),
        Head::Call(_, _, _) => None,
        Head::Known(_, _) => None,
        Head::LibraryCall(_, _) => None,
        Head::Choice(_, _, _) => None,
    }
}

/// The value of an expression that holds a call.
fn known_full(full: &Full) -> Option<Word>
    ensures { option_map word_view result ≡ known_value (full_view full.now) }
{
    let steps = full.steps.as_slice();
    let mut value = known_head(&full.head);
    for step in steps {
        value = behind_full(value, step);
    }
    value
}

/// The value of an expression, if it is known before the program runs.
fn known_value(e: &Expression) -> Option<Word>
    ensures { option_map word_view result ≡ known_value (expression_view e.now) }
{
    match e {
        Expression::Plain(plain) => known_plain(plain),
        Expression::Full(full) => known_full(full),
    }
}

/// The bytes of a value, if it is known, behind those of other parts.
fn push_value(
    alloc: Global,
    offset: u64,
    kind: Kind,
    value: &Expression,
    stored: &mut List<Stored>,
) -> Result<(), OutOfMemory>
    ensures { IfOk result (λ _. (rest : Sequence PartData)
        → map stored_view stored.old
        ++ parts_known (scalar_part offset (kind_type kind) (expression_view value.now) ∷ rest)
        ≡ map stored_view stored.new ++ parts_known rest) }
{
    if let Some(word) = known_value(value) {
        let bytes = encoded(alloc, kind, word)?;
        stored.push(Stored { at: offset, bytes })?;
    }
    Ok(())
}

/// The bytes of a part, if they are known, behind those of other parts.
fn push_part(alloc: Global, part: &Part, stored: &mut List<Stored>) -> Result<(), OutOfMemory>
    ensures { IfOk result (λ _. (rest : Sequence PartData)
        → map stored_view stored.old ++ parts_known (part_view part.now ∷ rest)
        ≡ map stored_view stored.new ++ parts_known rest) }
{
    match part {
        Part::Scalar {
            offset,
            kind,
            value,
        } => push_value(alloc, *offset, *kind, value, stored),
        Part::Text { offset, bytes } => {
            let bytes = List::from_slice(alloc, bytes.as_slice())?;
            stored.push(Stored { at: *offset, bytes })?;
            Ok(())
        }
        Part::Struct { .. } => Ok(()),
    }
}

/// The bytes of the parts that are known before the program runs, as a global has them, in the order of the parts
/// (ISO/IEC 9899:1999, 6.6, 9; 6.7.8, 4). The one error is want of memory.
pub fn known_parts(alloc: Global, parts: &[Part]) -> Result<List<Stored>, OutOfMemory>
    ensures { IfOk result (λ stored. map stored_view stored ≡ parts_known (parts_view parts.now)) }
{
    let mut stored = List::new(alloc);
    for part in parts {
        push_part(alloc, part, &mut stored)?;
    }
    Ok(stored)
}
