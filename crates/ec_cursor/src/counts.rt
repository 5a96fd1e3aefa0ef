//! What is counted, and its limits.

ghost use Rattle.std.specs.Prelude.{◌≡◌, option_map};
ghost use Rattle.ec_cursor.specs.States.{counts_view, counted_by, counted_within};
ghost use Rattle.ec_language.specs.Productions.{operations, derivations};

/// The most binary operators and postfix parts of a whole expression.
const MOST_OPERATIONS: usize = 4096;

/// The most stars and array lengths of a declarator, function, parameter or type name.
const MOST_DERIVATIONS: usize = 64;

/// What is counted so far.
#[derive(Clone, Copy, Debug)]
pub struct Counts {
    /// Binary operators and postfix parts of the expression that the place is in, if it is in one.
    pub operations: Option<usize>,
    /// Stars and array lengths of the declarator.
    pub derivations: usize,
}

/// What is counted.
#[derive(Clone, Copy, Debug, PartialEq, Eq)]
pub enum Counted {
    /// Binary operators and postfix parts of a whole expression.
    Operations,
    /// Stars and array lengths of a declarator, function, parameter or type name.
    Derivations,
}

/// One more of what is counted, or none where that is beyond the limit.
pub fn count_one(counts: Counts, counted: Counted) -> Option<Counts>
    ensures { option_map counts_view result
        ≡ counted_within (counted_by counted) (counts_view counts) }
{
    match counted {
        Counted::Operations => count_operation(counts),
        Counted::Derivations => count_derivation(counts),
    }
}

/// One more binary operator or postfix part. Outside of expressions none are counted.
fn count_operation(counts: Counts) -> Option<Counts>
    ensures { option_map counts_view result ≡ counted_within operations (counts_view counts) }
{
    match counts.operations {
        Some(operations) => {
            if operations >= MOST_OPERATIONS {
                return None;
            }
            Some(Counts {
                operations: Some(operations + 1),
                derivations: counts.derivations,
            })
        }
        None => Some(counts),
    }
}

/// One more star or array length.
fn count_derivation(counts: Counts) -> Option<Counts>
    ensures { option_map counts_view result ≡ counted_within derivations (counts_view counts) }
{
    if counts.derivations >= MOST_DERIVATIONS {
        return None;
    }
    Some(Counts {
        operations: counts.operations,
        derivations: counts.derivations + 1,
    })
}
