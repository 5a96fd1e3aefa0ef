//! Sources and what is written of them, run both ways: the same is asked, printed, left in each object, and both end the
//! same.
#![tactic(none)]

ghost use Rattle.std.specs.Prelude.{◌≡◌, [], ◌∷◌, Some, None, codes};
ghost use Rattle.ec_link.specs.declared.reply.Reply.TheVariants.{Broken};
ghost use Rattle.ec_meaning_defs.specs.evaluation.State.{exited};
ghost use Rattle.ec_call_defs.specs.Examples.{column, rows_of, done, denied};
ghost use Rattle.ec_direct_defs.specs.Examples.{means_over, shows, shown, run, ask};
ghost use Rattle.ec_direct_defs.specs.Sources.{one_row, code_and_host, with_indicator, counted_text, too_long_text, three_chars, none_found_goes, no_statement, whenever_is_text, two_handlers, array_of_three, read_at_open, fetch_loop, structs};
ghost use Rattle.ec_direct_defs.specs.simulation.Agreement.{Agree, AgreeOver};
ghost use Rattle.ec_direct_defs.specs.simulation.Sources.{two_connections, connected, transaction, begun, prepared, immediate, cursor_for_prepared, fetched_none, area, two_columns, struct_indicators, one_pair, pointers, one_text, loop_handlers, loop_replies, unseen};

/// A field is stored in its host, with a code where it doesn't fit or is missing.
pub fn stored_fields()
    ensures one_row { Agree one_row 5 (column (codes "7" ∷ []) ∷ []) }
    ensures spent { Agree one_row 2 (column (codes "7" ∷ []) ∷ []) }
    ensures waits { Agree one_row 5 [] }
    ensures missing { Agree code_and_host 5 (rows_of (codes "a" ∷ []) ((None ∷ []) ∷ []) ∷ []) }
    ensures told { Agree with_indicator 5 (rows_of (codes "a" ∷ []) ((None ∷ []) ∷ []) ∷ []) }
    ensures no_number { Agree code_and_host 5 (column (codes "12x" ∷ []) ∷ []) }
    ensures breaks { Agree code_and_host 5 (Broken ∷ []) }
{}

/// Texts: of a VARCHAR, and of an array of characters, which may be cut.
pub fn texts()
    ensures counted { Agree counted_text 5 (done (Some 1) ∷ []) }
    ensures too_long { Agree too_long_text 5 (done (Some 1) ∷ []) }
    ensures cut { Agree three_chars 5 (column (codes "abcdef" ∷ []) ∷ []) }
    ensures shorter { Agree three_chars 5 (column (codes "a" ∷ []) ∷ []) }
{}

/// Handlers: by the text and not by the flow of control, in their order, and with their jumps.
pub fn handlers()
    ensures jump { Agree none_found_goes 5 (done (Some 0) ∷ []) }
    ensures no_jump { Agree none_found_goes 5 (done (Some 1) ∷ []) }
    ensures not_reached { Agree no_statement 5 [] }
    ensures by_text { Agree whenever_is_text 5 (denied (codes "42P01") (codes "no t") ∷ []) }
    ensures in_order { Agree two_handlers 9 (rows_of (codes "a" ∷ codes "b" ∷ [])
        ((Some (codes "abc") ∷ None ∷ []) ∷ []) ∷ []) }
    ensures in_loops { Agree loop_handlers 30 loop_replies }
{}

/// Arrays and structs get rows, unless there are too many, and a cursor's hosts are read where it is opened.
pub fn rows_and_cursors()
    ensures too_many { Agree array_of_three 5
        (column (codes "1" ∷ codes "2" ∷ codes "3" ∷ codes "4" ∷ []) ∷ []) }
    ensures three { Agree array_of_three 5
        (column (codes "1" ∷ codes "2" ∷ codes "3" ∷ []) ∷ []) }
    ensures structs_filled { Agree structs 5 (rows_of (codes "c" ∷ codes "n" ∷ [])
        ((Some (codes "x") ∷ Some (codes "1") ∷ [])
        ∷ (Some (codes "y") ∷ Some (codes "2") ∷ []) ∷ []) ∷ []) }
    ensures opened { Agree read_at_open 5 (done None ∷ []) }
    ensures fetched { Agree fetch_loop 5 (column (codes "7" ∷ []) ∷ column [] ∷ []) }
    ensures spent { Agree fetch_loop 4 (column (codes "7" ∷ []) ∷ column [] ∷ []) }
{}

/// Connections, transactions, prepared statements, descriptors, structs of indicators, pointers.
pub fn other_forms()
    ensures connects { AgreeOver None connected two_connections 20 }
    ensures begins { Agree transaction 20 begun }
    ensures prepares { Agree prepared 20 (done None ∷ column (codes "5" ∷ []) ∷ done None ∷ []) }
    ensures known_late { Agree immediate 20 (done (Some 1) ∷ done (Some 0) ∷ []) }
    ensures for_prepared { Agree cursor_for_prepared 20 fetched_none }
    ensures described { Agree area 20 two_columns }
    ensures structs_of_indicators { Agree struct_indicators 20 one_pair }
    ensures by_pointers { Agree pointers 20 one_text }
    ensures by_pointers_none { Agree pointers 20 (column [] ∷ []) }
{}

/// What the sources of the forms above show, so that both ways are not alike in refusing them.
pub fn shown_forms()
    ensures connects { shown (means_over None connected two_connections 20)
        ≡ run (unseen ∷ unseen ∷ ask "begin transaction" ∷ ask "SELECT 1" ∷ ask "begin transaction"
        ∷ (codes "INSERT INTO t VALUES ($1)", Some (codes "1") ∷ [])
        ∷ unseen ∷ ask "begin transaction" ∷ ask "DELETE FROM t" ∷ unseen ∷ []) "" (exited 1) }
    ensures begins { shows transaction 20 begun
        ≡ run (ask "begin transaction" ∷ (codes "INSERT INTO t VALUES ($1)", Some (codes "3") ∷ [])
        ∷ ask "COMMIT" ∷ ask "ROLLBACK" ∷ []) "1\n" (exited 0) }
    ensures prepares { shows prepared 20 (done None ∷ column (codes "5" ∷ []) ∷ done None ∷ [])
        ≡ run (unseen ∷ unseen ∷ unseen ∷ []) "5\n" (exited 0) }
    ensures known_late { shows immediate 20 (done (Some 1) ∷ done (Some 0) ∷ [])
        ≡ run (ask "DELETE" ∷ ask "DELETE" ∷ []) "" (exited 0) }
    ensures for_prepared { shows cursor_for_prepared 20 fetched_none
        ≡ run (unseen ∷ (codes "DECLARE c CURSOR FOR SELECT $1", Some (codes "2") ∷ [])
        ∷ ask "FETCH c" ∷ ask "CLOSE c" ∷ []) "0 -1\n" (exited 0) }
    ensures described { shows area 20 two_columns
        ≡ run (unseen ∷ unseen ∷ unseen ∷ []) "2 bc 5 0\n" (exited 0) }
    ensures structs_of_indicators { shows struct_indicators 20 one_pair
        ≡ run (ask "SELECT c, n FROM t"
        ∷ (codes "INSERT INTO t VALUES ($1, $2)", Some (codes "x") ∷ None ∷ []) ∷ []) ""
        (exited 0) }
    ensures by_pointers { shows pointers 20 one_text
        ≡ run (ask "SELECT n, s FROM t" ∷ []) "3 abc\n" (exited 0) }
    ensures by_pointers_none { shows pointers 20 (column [] ∷ [])
        ≡ run (ask "SELECT n, s FROM t" ∷ []) "t7\n0 \n" (exited 0) }
    ensures in_loops { shows loop_handlers 30 loop_replies
        ≡ run (ask "FETCH c" ∷ ask "FETCH c" ∷ ask "FETCH c" ∷ ask "FETCH c"
        ∷ ask "DELETE FROM t" ∷ [])
        "1\n2\n" (exited 1) }
{}
