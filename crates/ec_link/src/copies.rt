// Copies that equal what they copy.
ghost use Rattle.std.specs.Prelude.{◌≡◌, IfOk};

use ec_base::{Bytes, List};
use std::alloc::AllocError;

// A copy of a list, where the copies of its elements equal them.
#[tactic(auto, using(std::proofs::lemmas::List::Elements::same_from_all_zip))]
pub(crate) fn list_copy<T: Clone>(list: &List<T>) -> Result<List<T>, AllocError>
    requires { (x y : T) → T.is_clone x y → y ≡ x }
    ensures { IfOk result (λ copy. copy ≡ list.now) }
{
    list.clone()
}

// A copy of a field.
pub(crate) fn field_copy(field: &Option<Bytes>) -> Result<Option<Bytes>, AllocError>
    ensures { IfOk result (λ copy. copy ≡ field.now) }
{
    match field {
        Some(text) => Ok(Some(list_copy(text)?)),
        None => Ok(None),
    }
}

// A copy of the fields of a row.
pub(crate) fn fields_copy(fields: &List<Option<Bytes>>) -> Result<List<Option<Bytes>>, AllocError>
    ensures { IfOk result (λ copy. copy ≡ fields.now) }
{
    list_copy(fields)
}

// A copy of rows.
pub(crate) fn rows_copy(
    rows: &List<List<Option<Bytes>>>,
) -> Result<List<List<Option<Bytes>>>, AllocError>
    ensures { IfOk result (λ copy. copy ≡ rows.now) }
{
    list_copy(rows)
}
