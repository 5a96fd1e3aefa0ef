//! The objects of a program, made in order.

ghost use Rattle.std.specs.Prelude.{◌≡◌, ◌++◌, [], ◌∷◌, map, OnOk};
ghost use Rattle.ec_code.specs.Views.{program_view};
ghost use Rattle.ec_interp.specs.opening.Opens.{Opens, objects_with};
ghost use Rattle.ec_meaning_defs.specs.resolved.Programs.{global_bytes, literal_bytes, opening_objects, sqlca_bytes};

use crate::opening::filling::{put_part, put_parts};
use ec_code::{GlobalVariable, Literal, Program};
use ec_memory::{MakeStop, Store};

/// Makes the objects of a program behind those that are there, in order: `sqlca`, the globals, the string literals (ISO/IEC
/// 9899:1999, 5.1.2). After an error those stay that were made before it.
pub fn open_program(store: &mut Store, program: &Program) -> Result<(), MakeStop>
    ensures opens { Opens (opening_objects (program_view program.now)) result store.old store.new }
    ensures objects { OnOk result (store.new
        ≡ store.old ++ objects_with (opening_objects (program_view program.now))) }
{
    match open_area(store) {
        Ok(()) => (),
        Err(why) => return Err(why),
    }
    match open_globals(store, program.globals.as_slice()) {
        Ok(()) => (),
        Err(why) => return Err(why),
    }
    open_literals(store, program.literals.as_slice())
}

/// Makes `sqlca`, as it is before the first statement (PostgreSQL manual, 36.8.2).
fn open_area(store: &mut Store) -> Result<(), MakeStop>
    ensures opens { Opens (sqlca_bytes ∷ []) result store.old store.new }
    ensures objects { OnOk result (store.new ≡ store.old ++ objects_with (sqlca_bytes ∷ [])) }
{
    match store.make_zeroed(256) {
        Ok(object) => {
            put_part(store, object, 0, b"SQLCA   ");
            put_part(store, object, 8, &[0, 1]);
            put_part(store, object, 180, b"NOT SET ");
            put_part(store, object, 248, b"00000");
            Ok(())
        }
        Err(why) => Err(why),
    }
}

/// Makes globals, in order.
fn open_globals(store: &mut Store, globals: &[GlobalVariable]) -> Result<(), MakeStop>
    ensures opens { Opens (map global_bytes globals.now) result store.old store.new }
    ensures objects { OnOk result
        (store.new ≡ store.old ++ objects_with (map global_bytes globals.now)) }
{
    for global in globals {
        match open_global(store, global) {
            Ok(()) => (),
            Err(why) => return Err(why),
        }
    }
    Ok(())
}

/// Makes a global, with the bytes of its initializer and zeros elsewhere (ISO/IEC 9899:1999, 6.7.8).
fn open_global(store: &mut Store, global: &GlobalVariable) -> Result<(), MakeStop>
    ensures opens { Opens (global_bytes global.now ∷ []) result store.old store.new }
    ensures objects { OnOk result
        (store.new ≡ store.old ++ objects_with (global_bytes global.now ∷ [])) }
{
    let size = global.size();
    let parts = global.values();
    match store.make_zeroed(size) {
        Ok(object) => {
            put_parts(store, object, size, parts);
            Ok(())
        }
        Err(why) => Err(why),
    }
}

/// Makes string literals, in order.
fn open_literals(store: &mut Store, literals: &[Literal]) -> Result<(), MakeStop>
    ensures opens { Opens (map literal_bytes literals.now) result store.old store.new }
    ensures objects { OnOk result
        (store.new ≡ store.old ++ objects_with (map literal_bytes literals.now)) }
{
    for literal in literals {
        match open_literal(store, literal) {
            Ok(()) => (),
            Err(why) => return Err(why),
        }
    }
    Ok(())
}

/// Makes a string literal, with its zero byte (ISO/IEC 9899:1999, 6.4.5).
fn open_literal(store: &mut Store, literal: &Literal) -> Result<(), MakeStop>
    ensures opens { Opens (literal_bytes literal.now ∷ []) result store.old store.new }
    ensures objects { OnOk result
        (store.new ≡ store.old ++ objects_with (literal_bytes literal.now ∷ [])) }
{
    let bytes = literal.bytes();
    match store.make_zeroed(bytes.len() as u64 + 1) {
        Ok(object) => {
            put_part(store, object, 0, bytes);
            Ok(())
        }
        Err(why) => Err(why),
    }
}
