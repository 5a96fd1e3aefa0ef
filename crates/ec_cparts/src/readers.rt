//! The readers of a level: each has the readers of the next one.

/// The readers of expressions where so many levels are left.
macro_rules! expressions_at {
    ($alloc:expr, $levels:expr) => {
        Expressions {
            alloc: $alloc,
            levels: $levels,
            subexpression: nested_subexpression,
            type_in_parentheses: nested_type,
        }
    };
}

/// The readers of types.
macro_rules! types_at {
    ($alloc:expr, $levels:expr) => {
        Types {
            alloc: $alloc,
            levels: $levels,
            members: nested_members,
        }
    };
}

/// The readers of declarators.
macro_rules! declarators_at {
    ($alloc:expr, $levels:expr) => {
        Declarators {
            expressions: ExpressionReaders {
                alloc: $alloc,
                levels: $levels,
                subexpression: nested_subexpression,
                expression: expression,
            },
            initializer_list: nested_initializers,
        }
    };
}

/// The readers of declarations.
macro_rules! declarations_at {
    ($alloc:expr, $levels:expr) => {
        Declarations {
            declarators: declarators_at!($alloc, $levels),
            members: nested_members,
        }
    };
}

pub(crate) use declarations_at;
pub(crate) use declarators_at;
pub(crate) use expressions_at;
pub(crate) use types_at;
