//! Statements, and the calls that are written for them, as the contracts of functions that do nothing.

ghost use Rattle.std.specs.Prelude.{◌≡◌, [], ◌∷◌, codes, true, false, Some, None};
ghost use Rattle.ec_ctypes.specs.declared.embedded.emb.Cond.TheVariants.{NotFound, Error};
ghost use Rattle.ec_ctypes.specs.declared.embedded.emb.Item.TheVariants.{Content, Indicator, Label};
ghost use Rattle.ec_ctypes.specs.trees.Embedded.{connect, set_connection, disconnect, autocommit, trans, server_text, declare_cursor, open_cursor, execute_immediate, prepare, execute, deallocate, allocate_area, free_area, get_count, get_items, set_count, set_items, whenever, include_sqlca, no_outs, listed_outs, area_outs, listed_ins, area_ins, bytes_part, const_input, goto_action, stop_action};
ghost use Rattle.ec_expansion_defs.specs.CallExamples.{emb, bound, null, lit, var, w, plain, int_place, told_place, constant_place, area_place, call_text, call_behind, writes, program_text};
ghost use Rattle.ec_expansion_defs.specs.Examples.{is};

/// Statements for the server: the connection, the text, the inputs and the outputs, each host as ten values; a constant
/// and a descriptor likewise.
pub fn server_examples()
    ensures no_hosts { call_text (server_text [] no_outs) (bound "DELETE FROM t" (null ∷ []) [] [])
        ≡ writes "ECPGdo(3, NULL, ECPGst_normal, \"DELETE FROM t\", ECPGt_EOIT, ECPGt_EORT)" }
    ensures connection { call_text (server_text [] no_outs)
        (bound "DELETE FROM t" (lit "c" ∷ []) [] []) ≡ writes
        "ECPGdo(3, \"c\", ECPGst_normal, \"DELETE FROM t\", ECPGt_EOIT, ECPGt_EORT)" }
    ensures connection_in_a_variable { call_text (server_text [] no_outs)
        (bound "DELETE FROM t" (var "c" ∷ []) [] []) ≡ writes
        "ECPGdo(3, c, ECPGst_normal, \"DELETE FROM t\", ECPGt_EOIT, ECPGt_EORT)" }
    ensures both_lists { call_text (server_text [] no_outs)
        (bound "s" (null ∷ []) (int_place "k" ∷ []) (told_place "x" "i" ∷ [])) ≡ writes
        "ECPGdo(3, NULL, ECPGst_normal, \"s\", ECPGt_int, &k, 0L, 1L, 4L, ECPGt_NO_INDICATOR, NULL, 0L, 0L, 0L, ECPGt_EOIT, ECPGt_int, &x, 0L, 1L, 4L, ECPGt_short, &i, 0L, 1L, 2L, ECPGt_EORT)" }
    ensures descriptor { call_text (server_text [] no_outs)
        (bound "s" (null ∷ []) [] (area_place (lit "d") ∷ [])) ≡ writes
        "ECPGdo(3, NULL, ECPGst_normal, \"s\", ECPGt_EOIT, ECPGt_descriptor, \"d\", 1L, 1L, 1L, ECPGt_NO_INDICATOR, NULL, 0L, 0L, 0L, ECPGt_EORT)" }
{}

/// Connections and transactions.
pub fn connection_examples()
    ensures connects { call_text (connect (w "db") None None None)
        (bound "" (lit "db" ∷ null ∷ null ∷ null ∷ []) [] [])
        ≡ writes "ECPGconnect(3, \"db\", NULL, NULL, NULL)" }
    ensures named { call_text (connect (w "db") (Some (w "c")) (Some (w "u")) (Some (w "p")))
        (bound "" (lit "db" ∷ lit "u" ∷ lit "p" ∷ lit "c" ∷ []) [] [])
        ≡ writes "ECPGconnect(3, \"db\", \"u\", \"p\", \"c\")" }
    ensures current { call_text (set_connection (w "c")) (bound "" (lit "c" ∷ []) [] [])
        ≡ writes "ECPGsetconn(3, \"c\")" }
    ensures disconnects { call_text (disconnect (w "CURRENT")) (bound "" (lit "CURRENT" ∷ []) [] [])
        ≡ writes "ECPGdisconnect(3, \"CURRENT\")" }
    ensures commits_by_itself { call_text (autocommit true) (bound "" (null ∷ []) [] [])
        ≡ writes "ECPGsetcommit(3, \"on\", NULL)" }
    ensures commits_when_told { call_text (autocommit false) (bound "" (lit "c" ∷ []) [] [])
        ≡ writes "ECPGsetcommit(3, \"off\", \"c\")" }
    ensures control { call_text (trans (codes "ROLLBACK")) (bound "" (null ∷ []) [] [])
        ≡ writes "ECPGtrans(3, NULL, \"ROLLBACK\")" }
{}

/// Prepared statements and cursors. DECLARE is not executed; OPEN sends its text, or its head and the prepared name.
pub fn prepared_examples()
    ensures prepares { call_text (prepare (codes "p") (w "SELECT 1"))
        (bound "" (null ∷ lit "SELECT 1" ∷ []) [] [])
        ≡ writes "ECPGprepare(3, NULL, \"p\", \"SELECT 1\")" }
    ensures deallocates { call_text (deallocate (codes "p")) (bound "" (null ∷ []) [] [])
        ≡ writes "ECPGdeallocate(3, NULL, \"p\")" }
    ensures at_once { call_text (execute_immediate (w "")) (bound "" (null ∷ var "q" ∷ []) [] [])
        ≡ writes "ECPGdo(3, NULL, ECPGst_exec_immediate, q, ECPGt_EOIT, ECPGt_EORT)" }
    ensures executes { call_text (execute (codes "p") (listed_ins []) no_outs)
        (bound "" (null ∷ []) (constant_place "42" ∷ []) []) ≡ writes
        "ECPGdo(3, NULL, ECPGst_execute, \"p\", ECPGt_const, \"42\", 0L, 1L, 0L, ECPGt_NO_INDICATOR, NULL, 0L, 0L, 0L, ECPGt_EOIT, ECPGt_EORT)" }
    ensures declares { call_text (declare_cursor (codes "c") [] None)
        (bound "DECLARE c CURSOR FOR SELECT 1" [] [] []) ≡ None }
    ensures opens { call_behind (declare_cursor (codes "c") [] None)
        (open_cursor (codes "C") (listed_ins []))
        (bound "DECLARE c CURSOR FOR SELECT 1" (null ∷ []) [] []) ≡ writes
        "ECPGdo(3, NULL, ECPGst_normal, \"DECLARE c CURSOR FOR SELECT 1\", ECPGt_EOIT, ECPGt_EORT)" }
    ensures opens_prepared { call_behind (declare_cursor (codes "c") [] (Some (codes "p")))
        (open_cursor (codes "c") (listed_ins []))
        (bound "DECLARE c CURSOR FOR " (null ∷ []) (int_place "k" ∷ []) []) ≡ writes
        "ECPGdo(3, NULL, ECPGst_open, \"DECLARE c CURSOR FOR \", \"p\", ECPGt_int, &k, 0L, 1L, 4L, ECPGt_NO_INDICATOR, NULL, 0L, 0L, 0L, ECPGt_EOIT, ECPGt_EORT)" }
{}

/// Descriptors, their count and their items.
pub fn descriptor_examples()
    ensures allocates { call_text (allocate_area (w "d")) (bound "" (lit "d" ∷ []) [] [])
        ≡ writes "ECPGallocate_desc(3, \"d\")" }
    ensures frees { call_text (free_area (w "d")) (bound "" (lit "d" ∷ []) [] [])
        ≡ writes "ECPGdeallocate_desc(3, \"d\")" }
    ensures gets_count { call_text (get_count (w "d") (plain "n"))
        (bound "" (lit "d" ∷ []) [] (int_place "n" ∷ [])) ≡ writes
        "ECPGget_desc_header(3, \"d\", ECPGt_int, &n, 0L, 1L, 4L, ECPGt_NO_INDICATOR, NULL, 0L, 0L, 0L)" }
    ensures sets_count { call_text (set_count (w "d") (const_input (codes "2")))
        (bound "" (lit "d" ∷ []) (constant_place "2" ∷ []) []) ≡ writes
        "ECPGset_desc_header(3, \"d\", ECPGt_const, \"2\", 0L, 1L, 0L, ECPGt_NO_INDICATOR, NULL, 0L, 0L, 0L)" }
    ensures gets_items { call_text
        (get_items (w "d") (const_input (codes "1"))
        ((Indicator, plain "i") ∷ (Label, plain "x") ∷ []))
        (bound "" (lit "d" ∷ []) (constant_place "1" ∷ []) (int_place "i" ∷ int_place "x" ∷ []))
        ≡ writes
        "ECPGget_desc(3, \"d\", ECPGt_const, \"1\", 0L, 1L, 0L, ECPGt_NO_INDICATOR, NULL, 0L, 0L, 0L, ECPGd_indicator, ECPGt_int, &i, 0L, 1L, 4L, ECPGt_NO_INDICATOR, NULL, 0L, 0L, 0L, ECPGd_name, ECPGt_int, &x, 0L, 1L, 4L, ECPGt_NO_INDICATOR, NULL, 0L, 0L, 0L, ECPGd_EODT)" }
    ensures sets_items { call_text
        (set_items (w "d") (const_input (codes "1")) ((Content, const_input (codes "a")) ∷ []))
        (bound "" (lit "d" ∷ []) (int_place "k" ∷ constant_place "a" ∷ []) []) ≡ writes
        "ECPGset_desc(3, \"d\", ECPGt_int, &k, 0L, 1L, 4L, ECPGt_NO_INDICATOR, NULL, 0L, 0L, 0L, ECPGd_data, ECPGt_const, \"a\", 0L, 1L, 0L, ECPGt_NO_INDICATOR, NULL, 0L, 0L, 0L, ECPGd_EODT)" }
    ensures directives { call_text (whenever NotFound stop_action) (bound "" [] [] []) ≡ None }
    ensures area { call_text include_sqlca (bound "" [] [] []) ≡ None }
{}

/// A whole program with one query, and one with a handler: the last before the statement for each condition.
pub fn program_examples()
    ensures query { program_text
        "EXEC SQL int x;\nint main(void) {\nEXEC SQL SELECT a FROM t INTO :x;\nprintf(\"%d\\n\", x);\nreturn 0;\n}\n"
        (emb (server_text (bytes_part (codes "SELECT a FROM t") ∷ [])
        (listed_outs (plain "x" ∷ []))) ∷ [])
        [] (bound "SELECT a FROM t" (null ∷ []) [] (int_place "x" ∷ []) ∷ []) ≡ is
        "#include <ecpglib.h>\n#include <sqlca.h>\n#line 1\nint x;\n#line 2\nint main(void)\n{\n#line 3\n{\n#line 3\nECPGdo(3, NULL, ECPGst_normal, \"SELECT a FROM t\", ECPGt_EOIT, ECPGt_int, &x, 0L, 1L, 4L, ECPGt_NO_INDICATOR, NULL, 0L, 0L, 0L, ECPGt_EORT);\n}\n#line 4\nprintf(\"%d\\012\", x);\n#line 5\nreturn 0;\n}\n" }
    ensures handlers { program_text "int main(void) {\n\nif (a) EXEC SQL DELETE FROM t; done: ; }"
        (emb (server_text [] no_outs) ∷ [])
        ((1, NotFound, stop_action) ∷ (2, NotFound, goto_action (codes "done"))
        ∷ (9, NotFound, stop_action) ∷ (3, Error, stop_action) ∷ [])
        (bound "DELETE FROM t" (null ∷ []) [] [] ∷ []) ≡ is
        "#include <ecpglib.h>\n#include <sqlca.h>\n#line 1\nint main(void)\n{\n#line 3\nif (a)\n#line 3\n{\n#line 3\nECPGdo(3, NULL, ECPGst_normal, \"DELETE FROM t\", ECPGt_EOIT, ECPGt_EORT);\n#line 3\nif (sqlca.sqlcode == 100)\n#line 3\ngoto done;\n#line 3\nif (sqlca.sqlcode < 0)\n#line 3\nexit(1);\n}\n#line 3\ndone:\n#line 3\n;\n}\n" }
{}
