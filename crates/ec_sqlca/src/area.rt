//! What the library tells in the communication area.

ghost use Rattle.std.specs.Prelude.{◌≡◌};
ghost use Rattle.ec_transfer_defs.specs.Area.{IsArea, area_reset, area_raised, area_warned, area_noticed, area_counted};

use crate::members::{put, put_count, put_int, put_long, put_zeros};
use crate::message::{text_length, text_on};
use ec_base::Line;
use ec_link::SqlState;
use ec_memory::Store;

/// Gives each member the value that it has when a statement begins: no code, no message, no warning. The first object
/// of the memory is the communication area. Nothing else is changed, and the bytes between the members stay.
pub fn reset(store: &mut Store)
    requires { IsArea store.old }
    ensures area { store.new ≡ area_reset store.old }
    ensures kept { IsArea store.new }
{
    put(store, 0, b"SQLCA   ");
    put_long(store, 8, 256);
    put_long(store, 16, 0);
    put_int(store, 24, 0);
    put_zeros(store, 28, 150);
    put(store, 180, b"NOT SET ");
    put_zeros(store, 192, 48);
    put_zeros(store, 240, 8);
    put(store, 248, b"00000");
}

/// Tells a code with its state and its message: `sqlcode`, `sqlstate`, and in `sqlerrm` the first 149 bytes of the
/// message with ` on line ` and the line behind it. `sqlerrml` counts the bytes before the first zero byte of these.
pub fn raise(store: &mut Store, code: i64, state: SqlState, message: &[u8], line: Line)
    requires { IsArea store.old }
    ensures area { store.new ≡ area_raised store.old code state.0 message.now line.0 }
    ensures kept { IsArea store.new }
{
    let text = text_on(message, line);
    let length = text_length(&text);
    put_long(store, 16, code);
    put_int(store, 24, length);
    put(store, 28, &text);
    put(store, 248, &state.0);
}

/// Tells that a value was cut: `sqlwarn[0]` and `sqlwarn[1]` are `W`.
pub fn warn(store: &mut Store)
    requires { IsArea store.old }
    ensures area { store.new ≡ area_warned store.old }
    ensures kept { IsArea store.new }
{
    put(store, 240, b"WW");
}

/// Tells that the server gave a notice: `sqlwarn[0]` and `sqlwarn[2]` are `W`.
pub fn notice(store: &mut Store)
    requires { IsArea store.old }
    ensures area { store.new ≡ area_noticed store.old }
    ensures kept { IsArea store.new }
{
    put(store, 240, b"W");
    put(store, 242, b"W");
}

/// Tells a number of rows: `sqlerrd[2]` is its low 64 bits as a `long`.
pub fn rows(store: &mut Store, n: u64)
    requires { IsArea store.old }
    ensures area { store.new ≡ area_counted store.old n }
    ensures kept { IsArea store.new }
{
    put_count(store, 208, n);
}
