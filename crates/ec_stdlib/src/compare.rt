//! Comparisons of texts and bytes (ISO/IEC 9899:1999, 7.21.4).

ghost use Rattle.std.specs.Prelude.{◌≡◌};
ghost use Rattle.ec_meaning_defs.specs.functions.Strings.{compared, order_of, reads_from, texts_compared};

use ec_base::Trap;
use ec_bytes::Ptr;
use ec_memory::Store;

/// Compares at most so many bytes, the first one's before the second one's. It ends at the first difference, and where
/// texts are compared at a zero byte.
pub(crate) fn compare(
    store: &Store,
    texts: bool,
    limit: u64,
    first: Ptr,
    second: Ptr,
) -> Result<i64, Trap>
    ensures { result
        ≡ compared texts limit (reads_from store.now first.0) (reads_from store.now second.0) }
{
    for at in 0..limit {
        let left = store.byte(first, at)?;
        let right = store.byte(second, at)?;
        if left != right {
            return Ok(order(left, right));
        }
        if texts && left == 0 {
            return Ok(0);
        }
    }
    Ok(0)
}

/// Two bytes against one another.
fn order(left: u8, right: u8) -> i64
    ensures { result ≡ order_of left right }
{
    if left < right { -1 } else { 1 }
}

/// Compares two texts.
pub(crate) fn compare_texts(store: &Store, first: Ptr, second: Ptr) -> Result<i64, Trap>
    ensures { result ≡ texts_compared store.now first.0 second.0 }
{
    match store.left(first) {
        Ok(left) => compare(store, true, left + 1, first, second),
        Err(trap) => Err(trap),
    }
}
