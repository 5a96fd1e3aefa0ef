//! Calls of ECPGdo, as the contracts of functions that do nothing.
#![tactic(none)]

ghost use Rattle.std.specs.Prelude.{◌≡◌, ◌-◌, true, false, pos, negsuc, [], ◌∷◌, ◌++◌, Some, None, codes, replicate};
ghost use Rattle.ec_arguments.specs.Arguments.{absent, word, held, host, constant, descriptor, normal, prepared, immediate, opening, run, disconnect, set_autocommit, control, prepare};
ghost use Rattle.ec_base.specs.declared.stop.Trap.TheVariants as trap;
ghost use Rattle.ec_ctypes.specs.declared.checked.library.Sym.TheVariants as sym;
ghost use Rattle.ec_link.specs.declared.reply.Reply.TheVariants as reply;
ghost use Rattle.ec_link.specs.declared.reply.Tx.TheVariants as tx;
ghost use Rattle.ec_link.specs.declared.request.Request.TheVariants as request;
ghost use Rattle.ec_memory_defs.specs.Cells.{set_cells, unset_cells};
ghost use Rattle.ec_memory_defs.specs.Memory.{alive, ended, pointer_to};
ghost use Rattle.ec_call_defs.specs.Examples.{link, ready, state, bytes, small, from, rows_told, rows_of, column, done, noted, denied, int_in, int_told, chars_in, ints_in, goes_on, halts, does, runs, over_ready, text_sent, well, fails, connections_left, warnings_left};
ghost use Rattle.ec_call_defs.specs.Outcomes.{trapped, waiting};

/// One row into one host, with an indicator and without.
pub fn plain_examples()
    ensures stored { runs [] (int_in 2 ∷ []) (over_ready (bytes (small 9) ∷ []) (column (codes "7" ∷
        []) ∷ []))
        ≡ well (pos 1) (bytes (small 7) ∷ []) (text_sent [] ∷ []) }
    ensures null { runs [] (int_in 2 ∷ []) (over_ready (bytes (small 9) ∷ [])
        (rows_of (codes "a" ∷ []) ((None ∷ []) ∷ []) ∷ []))
        ≡ fails (negsuc 212) (codes "22002") (pos 1) (bytes (small 9) ∷ []) (text_sent [] ∷ []) }
    ensures null_told { runs [] (int_told 2 3 ∷ []) (over_ready (bytes (small 9) ∷ bytes (small 9)
        ∷ []) (rows_of (codes "a" ∷ []) ((None ∷ []) ∷ []) ∷ []))
        ≡ well (pos 1) (bytes (small 9) ∷ bytes (replicate 4 255) ∷ []) (text_sent [] ∷ []) }
    ensures not_null_told { runs [] (int_told 2 3 ∷ []) (over_ready (bytes (small 9) ∷ bytes (small
        9) ∷ []) (column (codes "7" ∷ []) ∷ []))
        ≡ well (pos 1) (bytes (small 7) ∷ bytes (small 0) ∷ []) (text_sent [] ∷ []) }
    ensures no_number { runs [] (int_in 2 ∷ []) (over_ready (bytes (small 9) ∷ []) (column (codes
        "12x" ∷ []) ∷ []))
        ≡ fails (negsuc 203) (codes "42804") (pos 1) (bytes (small 9) ∷ []) (text_sent [] ∷ []) }
    ensures no_outputs { runs [] [] (over_ready [] (column (codes "7" ∷ codes "8" ∷ []) ∷ []))
        ≡ well (pos 2) [] (text_sent [] ∷ []) }
    ensures no_outputs_no_row { runs [] [] (over_ready [] (column [] ∷ []))
        ≡ fails (pos 100) (codes "02000") (pos 0) [] (text_sent [] ∷ []) }
    ensures dead_target { runs [] (int_in 3 ∷ []) (over_ready (bytes (small 9) ∷ []) (column (codes
        "7" ∷ []) ∷ []))
        ≡ (
          halts (trapped trap.Dead),
          pos 0,
          codes "00000",
          pos 1,
          bytes (small 9) ∷ [],
          text_sent
              [] ∷ [],
        ) }
    ensures waits { runs [] [] (over_ready [] [])
        ≡ (
          halts (waiting (Some 0) (request.Text (codes "s") [])),
          pos 0,
          codes "00000",
          pos 0,
          [],
          [],
        ) }
{}

/// Columns and rows are counted before anything is stored: columns first.
pub fn list_examples()
    ensures fewer_columns { runs [] (int_in 2 ∷ int_in 2 ∷ []) (over_ready (bytes (small 9) ∷ [])
        (column (codes "7" ∷ codes "8" ∷ []) ∷ []))
        ≡ fails (negsuc 200) (codes "07002") (pos 2) (bytes (small 9) ∷ []) (text_sent [] ∷ []) }
    ensures more_columns { runs [] (int_in 2 ∷ []) (over_ready (bytes (small 9) ∷ []) (rows_of
        (codes "a" ∷ codes "b" ∷ []) ((Some (codes "7") ∷ Some (codes "8") ∷ []) ∷ (None ∷ None ∷
        []) ∷ []) ∷ []))
        ≡ fails (negsuc 201) (codes "07002") (pos 2) (bytes (small 9) ∷ []) (text_sent [] ∷ []) }
    ensures more_rows { runs [] (ints_in 2 0 3 4 ∷ []) (over_ready (bytes (replicate 12 9) ∷ [])
        (column (codes "1" ∷ codes "2" ∷ codes "3" ∷ codes "4" ∷ []) ∷ []))
        ≡ fails (negsuc 202) (codes "21000") (pos 4) (bytes (replicate 12 9) ∷ []) (text_sent [] ∷
        []) }
    ensures as_many_rows { runs [] (ints_in 2 0 3 4 ∷ []) (over_ready (bytes (replicate 12 9) ∷ [])
        (column (codes "1" ∷ codes "2" ∷ codes "3" ∷ []) ∷ []))
        ≡ well (pos 3) (bytes (small 1 ++ small 2 ++ small 3) ∷ []) (text_sent [] ∷ []) }
    ensures fewer_rows { runs [] (ints_in 2 0 3 4 ∷ []) (over_ready (bytes (replicate 12 9) ∷ [])
        (column (codes "1" ∷ []) ∷ []))
        ≡ well (pos 1) (bytes (small 1 ++ replicate 8 9) ∷ []) (text_sent [] ∷ []) }
    ensures smallest_target { runs [] (ints_in 2 0 3 4 ∷ ints_in 2 0 2 4 ∷ []) (over_ready (bytes
        (replicate 12 9) ∷ []) (rows_of (codes "a" ∷ codes "b" ∷ []) ((Some (codes "1") ∷ Some
        (codes "1") ∷ []) ∷ (Some (codes "2") ∷ Some (codes "2") ∷ []) ∷ (Some (codes "3") ∷ Some
        (codes "3") ∷ []) ∷ []) ∷ []))
        ≡ fails (negsuc 202) (codes "21000") (pos 3) (bytes (replicate 12 9) ∷ []) (text_sent [] ∷
        []) }
    ensures no_row { runs [] (int_in 2 ∷ int_in 3 ∷ []) (over_ready (bytes (small 9) ∷ []) (column
        [] ∷ []))
        ≡ fails (pos 100) (codes "02000") (pos 0) (bytes (small 9) ∷ []) (text_sent [] ∷ []) }
{}

/// Target by target, in each row by row, each a distance further on. The first code or trap ends it, and what was stored
/// stays.
pub fn storing_examples()
    ensures structs { runs [] (chars_in 2 0 1 2 8 ∷ ints_in 2 4 2 8 ∷ []) (over_ready (alive
        (unset_cells 16) ∷ []) (rows_of (codes "c" ∷ codes "n" ∷ []) ((Some (codes "x") ∷ Some
        (codes "1") ∷ []) ∷ (Some (codes "y") ∷ Some (codes "2") ∷ []) ∷ []) ∷ []))
        ≡ well (pos 2) (alive (set_cells (codes "x") ++ unset_cells 3 ++ set_cells (small 1 ++ codes
        "y") ++ unset_cells 3 ++ set_cells (small 2)) ∷ []) (text_sent [] ∷ []) }
    ensures first_target_whole { runs [] (ints_in 2 0 2 4 ∷ ints_in 3 0 2 4 ∷ []) (over_ready (bytes
        (replicate 8 9) ∷ bytes (replicate 8 9) ∷ []) (rows_of (codes "a" ∷ codes "b" ∷ []) ((Some
        (codes "1") ∷ Some (codes "x") ∷ []) ∷ (Some (codes "2") ∷ Some (codes "3") ∷ []) ∷ []) ∷
        []))
        ≡ fails (negsuc 203) (codes "42804") (pos 2) (bytes (small 1 ++ small 2) ∷ bytes (replicate
        8 9) ∷ []) (text_sent [] ∷ []) }
    ensures second_row { runs [] (ints_in 2 0 2 4 ∷ ints_in 3 0 2 4 ∷ []) (over_ready (bytes
        (replicate 8 9) ∷ bytes (replicate 8 9) ∷ []) (rows_of (codes "a" ∷ codes "b" ∷ []) ((Some
        (codes "1") ∷ Some (codes "3") ∷ []) ∷ (Some (codes "x") ∷ Some (codes "4") ∷ []) ∷ []) ∷
        []))
        ≡ fails (negsuc 203) (codes "42804") (pos 2) (bytes (small 1 ++ replicate 4 9) ∷ bytes
        (replicate 8 9) ∷ []) (text_sent [] ∷ []) }
    ensures trap_keeps { runs [] (int_in 2 ∷ int_in 3 ∷ []) (over_ready (bytes (small 9) ∷ ended ∷
        []) (rows_of (codes "a" ∷ codes "b" ∷ []) ((Some (codes "1") ∷ Some (codes "2") ∷ []) ∷ [])
        ∷ []))
        ≡ (
          halts (trapped trap.Dead),
          pos 0,
          codes "00000",
          pos 1,
          bytes (small 1) ∷ ended ∷ [],
          text_sent [] ∷ [],
        ) }
    ensures cut_then_null { runs [] (chars_in 2 0 2 1 2 ∷ int_in 3 ∷ []) (over_ready (bytes
        (replicate 2 9) ∷ bytes (small 9) ∷ []) (rows_of (codes "a" ∷ codes "b" ∷ []) ((Some (codes
        "abc") ∷ None ∷ []) ∷ []) ∷ []))
        ≡ fails (negsuc 212) (codes "22002") (pos 1) (bytes (codes "ab") ∷ bytes (small 9) ∷ [])
        (text_sent [] ∷ []) }
{}

/// Each kind of reply, with outputs and without.
pub fn reply_examples()
    ensures done_counted { runs [] [] (over_ready [] (done (Some 3) ∷ []))
        ≡ well (pos 3) [] (text_sent [] ∷ []) }
    ensures done_uncounted { runs [] [] (over_ready [] (done None ∷ []))
        ≡ well (pos 0) [] (text_sent [] ∷ []) }
    ensures done_none { runs [] [] (over_ready [] (done (Some 0) ∷ []))
        ≡ fails (pos 100) (codes "02000") (pos 0) [] (text_sent [] ∷ []) }
    ensures done_into { runs [] (int_in 2 ∷ []) (over_ready (bytes (small 9) ∷ []) (done (Some 3) ∷
        []))
        ≡ fails (negsuc 200) (codes "07002") (pos 3) (bytes (small 9) ∷ []) (text_sent [] ∷ []) }
    ensures done_uncounted_into { runs [] (int_in 2 ∷ []) (over_ready (bytes (small 9) ∷ []) (done
        None ∷ []))
        ≡ fails (negsuc 200) (codes "07002") (pos 0) (bytes (small 9) ∷ []) (text_sent [] ∷ []) }
    ensures done_none_into { runs [] (int_in 2 ∷ []) (over_ready (bytes (small 9) ∷ []) (done (Some
        0) ∷ []))
        ≡ fails (pos 100) (codes "02000") (pos 0) (bytes (small 9) ∷ []) (text_sent [] ∷ []) }
    ensures duplicate { runs [] [] (over_ready [] (denied (codes "23505") (codes "no") ∷ []))
        ≡ fails (negsuc 402) (codes "23505") (pos 0) [] (text_sent [] ∷ []) }
    ensures subquery { runs [] [] (over_ready [] (denied (codes "21000") (codes "no") ∷ []))
        ≡ fails (negsuc 403) (codes "21000") (pos 0) [] (text_sent [] ∷ []) }
    ensures refusal { runs [] [] (over_ready [] (denied (codes "42P01") (codes "no t") ∷ []))
        ≡ fails (negsuc 399) (codes "42P01") (pos 0) [] (text_sent [] ∷ []) }
    ensures broken { runs [] (int_in 2 ∷ []) (over_ready (bytes (small 9) ∷ []) (reply.Broken ∷ []))
        ≡ fails (negsuc 399) (codes "08006") (pos 0) (bytes (small 9) ∷ []) (text_sent [] ∷ []) }
    ensures connected { runs [] [] (over_ready [] (reply.Connected ∷ []))
        ≡ fails (negsuc 399) (codes "08P01") (pos 0) [] (text_sent [] ∷ []) }
    ensures no_target { runs [] [] (over_ready [] (reply.NoTarget ∷ []))
        ≡ fails (negsuc 399) (codes "08P01") (pos 0) [] (text_sent [] ∷ []) }
    ensures told { connections_left (run absent (normal []) [] []) (over_ready [] (reply.Done None
        tx.Failed false ∷ []))
        ≡ (link (codes "db") 0 true tx.Failed ∷ [], Some (codes "db")) }
    ensures untold { connections_left (run absent (normal []) [] []) (state (link (codes "db") 0
        true tx.Active ∷ []) [] [] (from 0 reply.Broken ∷ []))
        ≡ (link (codes "db") 0 true tx.Active ∷ [], Some (codes "db")) }
{}

/// Inputs are read in order before anything else; a trap among them leaves all as it was.
pub fn input_examples()
    ensures in_order { runs (int_in 2 ∷ constant (codes "a") ∷ int_told 2 3 ∷ []) [] (over_ready
        (bytes (small 7) ∷ bytes (replicate 4 255) ∷ []) (done None ∷ []))
        ≡ well (pos 0) (bytes (small 7) ∷ bytes (replicate 4 255) ∷ []) (text_sent (Some (codes "7")
        ∷ Some (codes "a") ∷ None ∷ []) ∷ []) }
    ensures trap_first { runs (int_in 2 ∷ int_in 9 ∷ []) [] (over_ready (bytes (small 7) ∷ []) [])
        ≡ (halts (trapped trap.Dead), pos 0, codes "00000", pos 0, bytes (small 7) ∷ [], []) }
    ensures trap_keeps_the_code { does (run absent (normal []) (int_in 9 ∷ []) []) (state [] [] []
        [])
        ≡ (halts (trapped trap.Dead), pos 0, codes "00000", pos 0, [], []) }
    ensures name_first { does (run (held 0) (normal []) (int_in 9 ∷ []) []) (state [] [] [] [])
        ≡ (halts (trapped trap.Null), pos 0, codes "00000", pos 0, [], []) }
    ensures text_before_inputs { does (run absent (immediate (held 0)) (int_in 9 ∷ []) []) (state []
        [] [] [])
        ≡ (halts (trapped trap.Null), pos 0, codes "00000", pos 0, [], []) }
    ensures inputs_before_outputs { does (run absent (normal []) (int_in 9 ∷ []) (descriptor (held
        0) ∷ [])) (state [] [] [] [])
        ≡ (halts (trapped trap.Dead), pos 0, codes "00000", pos 0, [], []) }
    ensures outputs_named { does (run absent (normal []) [] (descriptor (held 0) ∷ [])) (state [] []
        [] [])
        ≡ (halts (trapped trap.Null), pos 0, codes "00000", pos 0, [], []) }
    ensures no_connection { runs (int_in 2 ∷ []) [] (state [] [] (bytes (small 7) ∷ []) [])
        ≡ fails (negsuc 219) (codes "08003") (pos 0) (bytes (small 7) ∷ []) [] }
{}

/// A transaction begins by itself where autocommit is off and the server is in none.
pub fn transaction_examples()
    ensures due { runs [] [] (state (link (codes "db") 4 false tx.Idle ∷ []) [] [] (from 4
        (reply.Done None tx.Active false) ∷ from 4 (done (Some 1)) ∷ []))
        ≡ well (pos 1) [] ((Some 4, request.Text (codes "begin transaction") []) ∷ (
          Some 4,
          request.Text (codes "s") [],
        ) ∷ []) }
    ensures active { runs [] [] (state (link (codes "db") 0 false tx.Active ∷ []) [] [] (from 0
        (done (Some 1)) ∷ []))
        ≡ well (pos 1) [] (text_sent [] ∷ []) }
    ensures failed { runs [] [] (state (link (codes "db") 0 false tx.Failed ∷ []) [] [] (from 0
        (done (Some 1)) ∷ []))
        ≡ well (pos 1) [] (text_sent [] ∷ []) }
    ensures rows_begin { runs [] [] (state (link (codes "db") 0 false tx.Idle ∷ []) [] [] (from 0
        (column []) ∷ from 0 (done None) ∷ []))
        ≡ well (pos 0) [] ((Some 0, request.Text (codes "begin transaction") []) ∷ text_sent [] ∷
        []) }
    ensures not_begun { runs [] [] (state (link (codes "db") 0 false tx.Idle ∷ []) [] [] (from 0
        (denied (codes "23505") []) ∷ []))
        ≡ fails (negsuc 400) (codes "08007") (pos 0) [] ((
          Some 0,
          request.Text (codes
              "begin transaction") [],
        ) ∷ []) }
    ensures broken_begin { runs [] [] (state (link (codes "db") 0 false tx.Idle ∷ []) [] [] (from 0
        reply.Broken ∷ []))
        ≡ fails (negsuc 400) (codes "08007") (pos 0) [] ((
          Some 0,
          request.Text (codes
              "begin transaction") [],
        ) ∷ []) }
    ensures told_by_begin { connections_left (run absent (normal []) [] []) (state (link (codes
        "db") 0 false tx.Idle ∷ []) [] [] (from 0 (reply.Done None tx.Active false) ∷ from 0 reply.Broken
        ∷ []))
        ≡ (link (codes "db") 0 false tx.Active ∷ [], Some (codes "db")) }
    ensures waits { runs [] [] (state (link (codes "db") 0 false tx.Idle ∷ []) [] [] [])
        ≡ (
          halts (waiting (Some 0) (request.Text (codes "begin transaction") [])),
          pos 0,
          codes
              "00000",
          pos 0,
          [],
          [],
        ) }
{}

/// The order of what is found: the connection, the prepared statement, the descriptors, that of the inputs first.
pub fn order_examples()
    ensures connection_first { does (run absent (prepared (codes "p")) (descriptor (word (codes
        "d")) ∷ []) []) (state [] [] [] [])
        ≡ fails (negsuc 219) (codes "08003") (pos 0) [] [] }
    ensures then_the_statement { does (run absent (prepared (codes "p")) (descriptor (word (codes
        "d")) ∷ []) []) (over_ready [] [])
        ≡ fails (negsuc 229) (codes "26000") (pos 0) [] [] }
    ensures then_the_descriptors { does (run absent (normal []) (descriptor (word (codes "d")) ∷ [])
        []) (state (link (codes "db") 0 false tx.Idle ∷ []) [] [] [])
        ≡ fails (negsuc 239) (codes "33000") (pos 0) [] [] }
    ensures named_connection { does (run (word (codes "b")) (normal (codes "s")) [] []) (state
        (ready ∷ link (codes "b") 5 true tx.Idle ∷ []) [] [] (from 5 (done None) ∷ []))
        ≡ well (pos 0) [] ((Some 5, request.Text (codes "s") []) ∷ []) }
    ensures other_name { does (run (word (codes "DB")) (normal (codes "s")) [] []) (over_ready []
        [])
        ≡ fails (negsuc 219) (codes "08003") (pos 0) [] [] }
    ensures area_by_pointer { does (run (held (pointer_to 2 0)) (normal (codes "s")) [] [])
        (over_ready (bytes (codes "db" ++ 0 ∷ 9 ∷ []) ∷ []) (done None ∷ []))
        ≡ well (pos 0) (bytes (codes "db" ++ 0 ∷ 9 ∷ []) ∷ []) (text_sent [] ∷ []) }
    ensures immediate_text { does (run absent (immediate (held (pointer_to 2 0))) [] []) (over_ready
        (bytes (codes "s" ++ 0 ∷ []) ∷ []) (done None ∷ []))
        ≡ well (pos 0) (bytes (codes "s" ++ 0 ∷ []) ∷ []) (text_sent [] ∷ []) }
{}

/// A notice is told before anything else is made of its answer, but of one to a request to close.
pub fn notice_examples()
    ensures rows { warnings_left (run absent (normal []) [] (int_in 2 ∷ [])) (over_ready (bytes
        (small 9) ∷ []) (noted (column (codes "7" ∷ [])) ∷ []))
        ≡ 87 ∷ 0 ∷ 87 ∷ [] }
    ensures without { warnings_left (run absent (normal []) [] (int_in 2 ∷ [])) (over_ready (bytes
        (small 9) ∷ []) (column (codes "7" ∷ []) ∷ []))
        ≡ 0 ∷ 0 ∷ 0 ∷ [] }
    ensures cut { warnings_left (run absent (normal []) [] (chars_in 2 0 2 1 2 ∷ [])) (over_ready
        (bytes (9 ∷ 9 ∷ []) ∷ []) (noted (column (codes "abc" ∷ [])) ∷ []))
        ≡ 87 ∷ 87 ∷ 87 ∷ [] }
    ensures code { warnings_left (run absent (normal []) [] []) (over_ready [] (noted (done (Some
        0)) ∷ []))
        ≡ 87 ∷ 0 ∷ 87 ∷ [] }
    ensures same_code { does (run absent (normal (codes "s")) [] []) (over_ready [] (noted (done
        (Some 0)) ∷ []))
        ≡ fails (pos 100) (codes "02000") (pos 0) [] (text_sent [] ∷ []) }
    ensures begun { warnings_left (run absent (normal []) [] []) (state (link (codes "db") 0 false
        tx.Idle ∷ []) [] [] (from 0 (noted (done None)) ∷ from 0 (denied (codes "42P01") []) ∷ []))
        ≡ 87 ∷ 0 ∷ 87 ∷ [] }
    ensures controlled { warnings_left (control absent (codes "COMMIT")) (over_ready [] (noted (done
        None) ∷ []))
        ≡ 87 ∷ 0 ∷ 87 ∷ [] }
    ensures committed { warnings_left (set_autocommit true absent) (state (link (codes "db") 0 false
        tx.Active ∷ []) [] [] (from 0 (noted (column [])) ∷ []))
        ≡ 87 ∷ 0 ∷ 87 ∷ [] }
    ensures prepared { warnings_left (prepare absent (codes "p") (word [])) (over_ready [] (noted
        (done None) ∷ []))
        ≡ 87 ∷ 0 ∷ 87 ∷ [] }
    ensures closed { warnings_left (disconnect (word (codes "db"))) (over_ready [] (noted (done
        None) ∷ []))
        ≡ 0 ∷ 0 ∷ 0 ∷ [] }
{}
