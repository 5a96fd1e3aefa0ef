//! What sources mean, as the contracts of functions that do nothing: what they ask, what they print and how they end.
#![tactic(none)]

ghost use Rattle.std.specs.Prelude.{◌≡◌, [], ◌∷◌, Some, None, codes};
ghost use Rattle.ec_base.specs.declared.stop.Trap.TheVariants.{BadLen};
ghost use Rattle.ec_call_defs.specs.Examples.{column, rows_of, done, denied};
ghost use Rattle.ec_meaning_defs.specs.evaluation.State.{exited, trapped, turns_spent};
ghost use Rattle.ec_direct_defs.specs.Examples.{shows, run, ask};
ghost use Rattle.ec_direct_defs.specs.Sources.{one_row, code_and_host, with_indicator, counted_text, too_long_text, three_chars, none_found_goes, no_statement, whenever_is_text, two_handlers, array_of_three, read_at_open, fetch_loop, structs};

/// A field is stored in its host, with a code where it doesn't fit or is missing.
pub fn stored_fields()
    ensures one_row { shows one_row 5 (column (codes "7" ∷ []) ∷ [])
        ≡ run (ask "SELECT a FROM t" ∷ []) "7\n" (exited 0) }
    ensures missing { shows code_and_host 5 (rows_of (codes "a" ∷ []) ((None ∷ []) ∷ []) ∷ [])
        ≡ run (ask "SELECT a FROM t" ∷ []) "-213 0\n" (exited 0) }
    ensures told { shows with_indicator 5 (rows_of (codes "a" ∷ []) ((None ∷ []) ∷ []) ∷ [])
        ≡ run (ask "SELECT a FROM t" ∷ []) "0 0 -1\n" (exited 0) }
    ensures too_large { shows code_and_host 5 (column (codes "2147483648" ∷ []) ∷ [])
        ≡ run (ask "SELECT a FROM t" ∷ []) "-204 0\n" (exited 0) }
    ensures no_number { shows code_and_host 5 (column (codes "12x" ∷ []) ∷ [])
        ≡ run (ask "SELECT a FROM t" ∷ []) "-204 0\n" (exited 0) }
    ensures least { shows code_and_host 5 (column (codes "-2147483648" ∷ []) ∷ [])
        ≡ run (ask "SELECT a FROM t" ∷ []) "0 -2147483648\n" (exited 0) }
{}

/// Texts: of a VARCHAR, and of an array of characters, which may be cut.
pub fn texts()
    ensures counted { shows counted_text 5 (done (Some 1) ∷ [])
        ≡ run ((codes "INSERT INTO t VALUES ($1)", Some (codes "ab") ∷ []) ∷ []) ""
        (exited 0) }
    ensures too_long { shows too_long_text 5 (done (Some 1) ∷ [])
        ≡ run [] "" (trapped BadLen 4) }
    ensures cut { shows three_chars 5 (column (codes "abcdef" ∷ []) ∷ [])
        ≡ run (ask "SELECT a FROM t" ∷ []) "ab99 6 87 87\n" (exited 0) }
    ensures shorter { shows three_chars 5 (column (codes "a" ∷ []) ∷ [])
        ≡ record {
          asked = ask "SELECT a FROM t" ∷ [];
          output = 97 ∷ 0 ∷ codes "122 0 0 0\n";
          ending = exited 0;
        } }
{}

/// Handlers: by the text and not by the flow of control, in their order, and with their jumps.
pub fn handlers()
    ensures jump { shows none_found_goes 5 (done (Some 0) ∷ [])
        ≡ run (ask "DELETE FROM t" ∷ []) "" (exited 3) }
    ensures no_jump { shows none_found_goes 5 (done (Some 1) ∷ [])
        ≡ run (ask "DELETE FROM t" ∷ []) "0\n" (exited 3) }
    ensures not_reached { shows no_statement 5 []
        ≡ run [] "1\n" (exited 4) }
    ensures by_text { shows whenever_is_text 5 (denied (codes "42P01") (codes "no t") ∷ [])
        ≡ run (ask "DELETE FROM t" ∷ []) "" (exited 1) }
    ensures in_order { shows two_handlers 9 (rows_of (codes "a" ∷ codes "b" ∷ [])
        ((Some (codes "abc") ∷ None ∷ []) ∷ []) ∷ [])
        ≡ run (ask "SELECT a, b FROM t" ∷ []) "we" (exited 100) }
{}

/// Arrays and structs get rows, unless there are too many, and a cursor's hosts are read where it is opened.
pub fn rows_and_cursors()
    ensures too_many { shows array_of_three 5
        (column (codes "1" ∷ codes "2" ∷ codes "3" ∷ codes "4" ∷ []) ∷ [])
        ≡ run (ask "SELECT a FROM t" ∷ []) "-203 9 9 9 4\n" (exited 0) }
    ensures three { shows array_of_three 5
        (column (codes "1" ∷ codes "2" ∷ codes "3" ∷ []) ∷ [])
        ≡ run (ask "SELECT a FROM t" ∷ []) "0 1 2 3 3\n" (exited 0) }
    ensures structs_filled { shows structs 5 (rows_of (codes "c" ∷ codes "n" ∷ [])
        ((Some (codes "x") ∷ Some (codes "1") ∷ [])
        ∷ (Some (codes "y") ∷ Some (codes "2") ∷ []) ∷ []) ∷ [])
        ≡ run (ask "SELECT c, n FROM t" ∷ []) "x1y2\n" (exited 0) }
    ensures opened { shows read_at_open 5 (done None ∷ [])
        ≡ run ((
          codes "DECLARE c CURSOR FOR SELECT a FROM t WHERE b = $1",
          Some (codes "2") ∷ [],
        ) ∷ []) "" (exited 0) }
    ensures fetched { shows fetch_loop 5 (column (codes "7" ∷ []) ∷ column [] ∷ [])
        ≡ run (ask "FETCH c" ∷ ask "FETCH c" ∷ []) "7 1\n" (exited 0) }
    ensures spent { shows fetch_loop 4 (column (codes "7" ∷ []) ∷ column [] ∷ [])
        ≡ run (ask "FETCH c" ∷ ask "FETCH c" ∷ []) "" turns_spent }
{}
