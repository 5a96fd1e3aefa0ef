//! Calls on connections, transactions and prepared statements, as the contracts of functions that do nothing.
#![tactic(none)]

ghost use Rattle.std.specs.Prelude.{◌≡◌, true, false, pos, negsuc, [], ◌∷◌, ◌++◌, Some, None, codes};
ghost use Rattle.ec_arguments.specs.Arguments.{absent, word, held, descriptor, normal, prepared, opening, run, connect, disconnect, set_connection, set_autocommit, control, prepare, deallocate};
ghost use Rattle.ec_base.specs.declared.stop.Trap.TheVariants as trap;
ghost use Rattle.ec_link.specs.declared.reply.Reply.TheVariants as reply;
ghost use Rattle.ec_link.specs.declared.reply.Tx.TheVariants as tx;
ghost use Rattle.ec_link.specs.declared.request.Request.TheVariants as request;
ghost use Rattle.ec_call_defs.specs.Examples.{link, ready, state, bytes, from, column, done, denied, halts, does, over_ready, well, fails, connections_left};
ghost use Rattle.ec_call_defs.specs.Marks.{with_marks};
ghost use Rattle.ec_call_defs.specs.Outcomes.{trapped, waiting};

/// A new connection is the current one, with the name that it is given or that of its target.
pub fn connecting_examples()
    ensures named { connections_left (connect (word (codes "db")) absent absent (word (codes "a")))
        (state [] [] [] ((Some 4, reply.Connected) ∷ []))
        ≡ (link (codes "a") 4 false tx.Idle ∷ [], Some (codes "a")) }
    ensures by_target { connections_left (connect (word (codes "db")) absent absent absent) (state
        (link (codes "a") 0 true tx.Idle ∷ []) [] [] ((Some 4, reply.Connected) ∷ []))
        ≡ (
          link (codes "a") 0 true tx.Idle ∷ link (codes "db") 4 false tx.Idle ∷ [],
          Some (codes
              "db"),
        ) }
    ensures request { does (connect (word (codes "db")) (word (codes "u")) absent absent) (state []
        [] [] ((Some 4, reply.Connected) ∷ []))
        ≡ well (pos 0) [] ((Some 4, request.Connect (codes "db") (Some (codes "u")) None) ∷ []) }
    ensures in_use { does (connect (word (codes "b")) absent absent (word (codes "db"))) (over_ready
        [] (reply.Connected ∷ []))
        ≡ fails (negsuc 401) (codes "08001") (pos 0) [] [] }
    ensures target_in_use { does (connect (word (codes "db")) absent absent absent) (over_ready []
        (reply.Connected ∷ []))
        ≡ fails (negsuc 401) (codes "08001") (pos 0) [] [] }
    ensures no_target { does (connect (word (codes "x")) absent absent absent) (state [] [] []
        ((None, reply.NoTarget) ∷ []))
        ≡ fails (negsuc 401) (codes "08001") (pos 0) [] ((
          None,
          request.Connect (codes "x") None
              None,
        ) ∷ []) }
    ensures no_slot { does (connect (word (codes "x")) absent absent absent) (state [] [] [] ((
      None,
      reply.Connected,
    ) ∷ []))
        ≡ fails (negsuc 401) (codes "08001") (pos 0) [] ((
          None,
          request.Connect (codes "x") None
              None,
        ) ∷ []) }
    ensures broken { does (connect (word (codes "x")) absent absent absent) (state [] [] [] ((
      Some
          2,
      reply.Broken,
    ) ∷ []))
        ≡ fails (negsuc 401) (codes "08001") (pos 0) [] ((
          Some 2,
          request.Connect (codes "x") None
              None,
        ) ∷ []) }
    ensures done { does (connect (word (codes "x")) absent absent absent) (state [] [] [] ((
      Some 2,
      done (Some 7),
    ) ∷ []))
        ≡ fails (negsuc 401) (codes "08001") (pos 0) [] ((
          Some 2,
          request.Connect (codes "x") None
              None,
        ) ∷ []) }
    ensures refused { connections_left (connect (word (codes "x")) absent absent absent) (over_ready
        [] (denied (codes "28000") [] ∷ []))
        ≡ (ready ∷ [], Some (codes "db")) }
    ensures waits { does (connect (word (codes "x")) absent absent absent) (state [] [] [] [])
        ≡ (
          halts (waiting None (request.Connect (codes "x") None None)),
          pos 0,
          codes "00000",
          pos
              0,
          [],
          [],
        ) }
    ensures trap { does (connect (held 0) (held 0) absent absent) (state [] [] [] [])
        ≡ (halts (trapped trap.Null), pos 0, codes "00000", pos 0, [], []) }
{}

/// Connections are closed whatever the answer, and the one opened last of those that are left follows the current one.
pub fn disconnecting_examples()
    ensures current { connections_left (disconnect (word (codes "CURRENT"))) (state (link (codes
        "c") 2 true tx.Idle ∷ link (codes "a") 0 true tx.Idle ∷ link (codes "b") 1 true tx.Idle ∷
        []) [] [] (from 2 reply.Broken ∷ []))
        ≡ (
          link (codes "a") 0 true tx.Idle ∷ link (codes "b") 1 true tx.Idle ∷ [],
          Some (codes
              "b"),
        ) }
    ensures another { connections_left (disconnect (word (codes "b"))) (state (link (codes "a") 0
        true tx.Idle ∷ link (codes "b") 1 true tx.Idle ∷ link (codes "c") 2 true tx.Idle ∷ []) [] []
        (from 1 (done None) ∷ []))
        ≡ (
          link (codes "a") 0 true tx.Idle ∷ link (codes "c") 2 true tx.Idle ∷ [],
          Some (codes
              "a"),
        ) }
    ensures last { connections_left (disconnect (word (codes "db"))) (over_ready [] (done None ∷
        []))
        ≡ ([], None) }
    ensures answer_is_not_looked_at { does (disconnect (word (codes "CURRENT"))) (over_ready []
        (denied (codes "23505") [] ∷ []))
        ≡ well (pos 0) [] ((Some 0, request.Close) ∷ []) }
    ensures all { does (disconnect (word (codes "ALL"))) (state (link (codes "a") 0 true tx.Idle ∷
        link (codes "b") 1 true tx.Idle ∷ []) [] [] (from 1 (done None) ∷ from 0 (done None) ∷ []))
        ≡ well (pos 0) [] ((Some 1, request.Close) ∷ (Some 0, request.Close) ∷ []) }
    ensures all_of_none { does (disconnect (word (codes "ALL"))) (state [] [] [] [])
        ≡ well (pos 0) [] [] }
    ensures all_waits { does (disconnect (word (codes "ALL"))) (state (link (codes "a") 0 true
        tx.Idle ∷ link (codes "b") 1 true tx.Idle ∷ []) [] [] (from 1 (done None) ∷ []))
        ≡ (
          halts (waiting (Some 0) request.Close),
          pos 0,
          codes "00000",
          pos 0,
          [],
          (
            Some 1,
            request.Close,
          ) ∷ [],
        ) }
    ensures none { does (disconnect (word (codes "CURRENT"))) (state [] [] [] [])
        ≡ fails (negsuc 219) (codes "08003") (pos 0) [] [] }
    ensures unknown { does (disconnect (word (codes "x"))) (over_ready [] [])
        ≡ fails (negsuc 219) (codes "08003") (pos 0) [] [] }
    ensures set { connections_left (set_connection (word (codes "b"))) (state (link (codes "a") 0
        true tx.Idle ∷ link (codes "b") 1 true tx.Idle ∷ []) [] [] [])
        ≡ (
          link (codes "a") 0 true tx.Idle ∷ link (codes "b") 1 true tx.Idle ∷ [],
          Some (codes
              "b"),
        ) }
    ensures set_unknown { does (set_connection (word (codes "CURRENT"))) (over_ready [] [])
        ≡ fails (negsuc 219) (codes "08003") (pos 0) [] [] }
{}

/// Transaction control has no transaction begun before it, and autocommit ends one that is open.
pub fn control_examples()
    ensures control { does (control absent (codes "COMMIT")) (state (link (codes "a") 3 false
        tx.Idle ∷ []) [] [] (from 3 (done (Some 0)) ∷ []))
        ≡ well (pos 0) [] ((Some 3, request.Text (codes "COMMIT") []) ∷ []) }
    ensures control_rows { does (control absent (codes "COMMIT")) (over_ready [] (column (codes "7"
        ∷ []) ∷ []))
        ≡ well (pos 0) [] ((Some 0, request.Text (codes "COMMIT") []) ∷ []) }
    ensures control_refused { does (control absent (codes "COMMIT")) (over_ready [] (denied (codes
        "23505") [] ∷ []))
        ≡ fails (negsuc 400) (codes "08007") (pos 0) [] ((Some 0, request.Text (codes "COMMIT") [])
        ∷ []) }
    ensures control_broken { does (control absent (codes "COMMIT")) (over_ready [] (reply.Broken ∷
        []))
        ≡ fails (negsuc 400) (codes "08007") (pos 0) [] ((Some 0, request.Text (codes "COMMIT") [])
        ∷ []) }
    ensures on { does (set_autocommit true absent) (state (link (codes "a") 3 false tx.Active ∷ [])
        [] [] (from 3 (done None) ∷ []))
        ≡ well (pos 0) [] ((Some 3, request.Text (codes "commit") []) ∷ []) }
    ensures on_failed { connections_left (set_autocommit true absent) (state (link (codes "a") 3
        false tx.Failed ∷ []) [] [] (from 3 (done None) ∷ []))
        ≡ (link (codes "a") 3 true tx.Idle ∷ [], Some (codes "a")) }
    ensures on_idle { does (set_autocommit true absent) (state (link (codes "a") 3 false tx.Idle ∷
        []) [] [] [])
        ≡ well (pos 0) [] [] }
    ensures on_again { does (set_autocommit true absent) (state (link (codes "a") 3 true tx.Active ∷
        []) [] [] [])
        ≡ well (pos 0) [] [] }
    ensures on_refused { connections_left (set_autocommit true absent) (state (link (codes "a") 3
        false tx.Active ∷ []) [] [] (from 3 reply.Broken ∷ []))
        ≡ (link (codes "a") 3 false tx.Active ∷ [], Some (codes "a")) }
    ensures off { connections_left (set_autocommit false (word (codes "db"))) (over_ready [] [])
        ≡ (link (codes "db") 0 false tx.Idle ∷ [], Some (codes "db")) }
    ensures no_connection { does (set_autocommit false absent) (state [] [] [] [])
        ≡ fails (negsuc 219) (codes "08003") (pos 0) [] [] }
{}

/// The marks of a text that is prepared.
pub fn mark_examples()
    ensures marks { with_marks (codes "a ? b ?") ≡ codes "a $1 b $2" }
    ensures quoted { with_marks (codes "VALUES (?, '?')") ≡ codes "VALUES ($1, '?')" }
    ensures double_quoted { with_marks (34 ∷ codes "?'" ++ 34 ∷ codes "?") ≡ 34 ∷ codes "?'" ++ 34 ∷
        codes "$1" }
    ensures doubled { with_marks (codes "'a''?' ?") ≡ codes "'a''?' $1" }
    ensures backslash { with_marks (92 ∷ codes "'?") ≡ 92 ∷ codes "'?" }
    ensures backslash_in_quote { with_marks (codes "'a" ++ 92 ∷ codes "' ?") ≡ codes "'a" ++ 92 ∷
        codes "' $1" }
    ensures escaped { with_marks (codes "E'a" ++ 92 ∷ codes "' ?' ?") ≡ codes "E'a" ++ 92 ∷ codes
        "' ?' $1" }
    ensures small_e { with_marks (codes "x=e'" ++ 92 ∷ codes "'?'") ≡ codes "x=e'" ++ 92 ∷ codes
        "'?'" }
    ensures other_word { with_marks (codes "DE'" ++ 92 ∷ codes "'?") ≡ codes "DE'" ++ 92 ∷ codes
        "'$1" }
    ensures number { with_marks (codes "1E'" ++ 92 ∷ codes "'?") ≡ codes "1E'" ++ 92 ∷ codes "'$1" }
    ensures escaped_doubled { with_marks (codes "E'''?'?") ≡ codes "E'''?'$1" }
    ensures line { with_marks (codes "a --?" ++ 10 ∷ codes "?") ≡ codes "a --?" ++ 10 ∷ codes "$1" }
    ensures nested { with_marks (codes "/*?/*?*/?*/?") ≡ codes "/*?/*?*/?*/$1" }
    ensures division { with_marks (codes "?/?") ≡ codes "$1/$2" }
    ensures unended { with_marks (codes "'?") ≡ codes "'?" }
    ensures tenth { with_marks (codes "??????????") ≡ codes "$1$2$3$4$5$6$7$8$9$10" }
{}

/// Prepared statements belong to their connection, from the answer of the server on.
pub fn preparing_examples()
    ensures prepares { does (prepare absent (codes "p") (word (codes "s ?"))) (state (link (codes
        "a") 3 false tx.Idle ∷ []) [] [] (from 3 (done (Some 0)) ∷ []))
        ≡ well (pos 0) [] ((Some 3, request.Prepare (codes "p") (codes "s $1")) ∷ []) }
    ensures prepared { connections_left (prepare absent (codes "p") (word (codes "s ?")))
        (over_ready [] (done None ∷ []))
        ≡ (record ready { prepared = (codes "p", codes "s $1") ∷ [] } ∷ [], Some (codes "db")) }
    ensures replaced { connections_left (prepare absent (codes "p") (word (codes "t"))) (state
        (record ready { prepared = (codes "o", []) ∷ (codes "p", codes "s") ∷ [] } ∷ []) [] [] (from
        0 (column []) ∷ []))
        ≡ (
          record ready { prepared = (codes "o", []) ∷ (codes "p", codes "t") ∷ [] } ∷ [],
          Some
              (codes "db"),
        ) }
    ensures refused { connections_left (prepare absent (codes "p") (word (codes "t"))) (state
        (record ready { prepared = (codes "p", codes "s") ∷ [] } ∷ []) [] [] (from 0 (denied (codes
        "42601") []) ∷ []))
        ≡ (record ready { prepared = (codes "p", codes "s") ∷ [] } ∷ [], Some (codes "db")) }
    ensures refused_code { does (prepare absent (codes "p") (word (codes "t"))) (over_ready []
        (denied (codes "42601") [] ∷ []))
        ≡ fails (negsuc 399) (codes "42601") (pos 0) [] ((
          Some 0,
          request.Prepare (codes "p") (codes
              "t"),
        ) ∷ []) }
    ensures broken { does (prepare absent (codes "p") (word (codes "t"))) (over_ready []
        (reply.Broken ∷ []))
        ≡ fails (negsuc 399) (codes "08006") (pos 0) [] ((
          Some 0,
          request.Prepare (codes "p") (codes
              "t"),
        ) ∷ []) }
    ensures executes { does (run absent (prepared (codes "p")) [] []) (state (record ready {
      prepared = (codes "p", codes "s") ∷ [];
    } ∷ []) [] [] (from 0 (done (Some 2)) ∷ []))
        ≡ well (pos 2) [] ((Some 0, request.Exec (codes "p") []) ∷ []) }
    ensures upper_case { does (run absent (prepared (codes "P")) [] []) (state (record ready {
      prepared = (codes "p", codes "s") ∷ [];
    } ∷ []) [] [] [])
        ≡ fails (negsuc 229) (codes "26000") (pos 0) [] [] }
    ensures opens { does (run absent (opening (codes "c FOR ") (codes "p")) [] []) (state (record
        ready { prepared = (codes "p", codes "s") ∷ [] } ∷ []) [] [] (from 0 (done None) ∷ []))
        ≡ well (pos 0) [] ((Some 0, request.Text (codes "c FOR s") []) ∷ []) }
    ensures other_connection { does (run (word (codes "b")) (prepared (codes "p")) [] []) (state
        (record ready { prepared = (codes "p", codes "s") ∷ [] } ∷ link (codes "b") 1 true tx.Idle ∷
        []) [] [] [])
        ≡ fails (negsuc 229) (codes "26000") (pos 0) [] [] }
    ensures deallocates { connections_left (deallocate absent (codes "p")) (state (record ready {
      prepared = (codes "p", codes "s") ∷ [];
    } ∷ []) [] [] (from 0 (done None) ∷ []))
        ≡ (ready ∷ [], Some (codes "db")) }
    ensures kept { connections_left (deallocate absent (codes "p")) (state (record ready {
      prepared = (codes "p", codes "s") ∷ [];
    } ∷ []) [] [] (from 0 reply.Broken ∷ []))
        ≡ (record ready { prepared = (codes "p", codes "s") ∷ [] } ∷ [], Some (codes "db")) }
    ensures not_there { does (deallocate absent (codes "p")) (over_ready [] (done None ∷ []))
        ≡ fails (negsuc 229) (codes "26000") (pos 0) [] [] }
{}
