//! Sources, and what is written of them, as the contracts of functions that do nothing.

ghost use Rattle.std.specs.Prelude.{◌≡◌, codes, Ok, true};
ghost use Rattle.ec_ctypes.specs.declared.embedded.emb.Cond.TheVariants.{NotFound, Warning, Error};
ghost use Rattle.ec_ctypes.specs.trees.Embedded.{continue_action, goto_action, print_action, stop_action, break_action, next_action, call_action};
ghost use Rattle.ec_ctypes.specs.trees.Exprs.{exprs, no_exprs, identifier};
ghost use Rattle.ec_expansion_defs.specs.Examples.{written_of, is, is_read_back, always, only, tests_text};

/// Marks of declare sections and directives are gone. A VARCHAR is its struct, each by a declaration of its own: the last
/// of its array lengths is that of its text, and the name of its tag tells the variable. As a member it has no tag
/// (PostgreSQL manual, 36.4.4).
pub fn declaration_examples()
    ensures section { written_of
        "EXEC SQL BEGIN DECLARE SECTION; int x; EXEC SQL END DECLARE SECTION;"
        ≡ is "#line 1\nint x;\n" }
    ensures in_place { written_of "EXEC SQL int x, *p = &x;" ≡ is "#line 1\nint x, *p = &x;\n" }
    ensures varchar { written_of "EXEC SQL VARCHAR v[180];"
        ≡ is "#line 1\nstruct varchar_v { int len; char arr[180]; } v;\n" }
    ensures lower_case { written_of "EXEC SQL varchar v[2 * 90];"
        ≡ is "#line 1\nstruct varchar_v { int len; char arr[2 * 90]; } v;\n" }
    ensures two_varchars { written_of "EXEC SQL VARCHAR v[5], w[6];" ≡ is
        "#line 1\nstruct varchar_v { int len; char arr[5]; } v;\n#line 1\nstruct varchar_w { int len; char arr[6]; } w;\n" }
    ensures array_of_varchars { written_of "EXEC SQL VARCHAR v[3][10];"
        ≡ is "#line 1\nstruct varchar_v { int len; char arr[10]; } v[3];\n" }
    ensures initialized { written_of "EXEC SQL VARCHAR v[3] = {2, \"ab\"};"
        ≡ is "#line 1\nstruct varchar_v { int len; char arr[3]; } v = {2, \"ab\"};\n" }
    ensures members { written_of "EXEC SQL struct p { VARCHAR v[5], w[2][6]; int n; } a[2];" ≡ is
        "#line 1\nstruct p { struct { int len; char arr[5]; } v; struct { int len; char arr[6]; } w[2]; int n; } a[2];\n" }
    ensures in_a_block { written_of
        "int main(void) { int a;\nEXEC SQL VARCHAR v[5], w[6];\na = 1; }" ≡ is
        "#line 1\nint main(void)\n{\n#line 1\nint a;\n#line 2\nstruct varchar_v { int len; char arr[5]; } v;\n#line 2\nstruct varchar_w { int len; char arr[6]; } w;\n#line 3\na = 1;\n}\n" }
{}

/// A statement is a block in its place, also where it stands alone under an `if`; a directive is nothing.
pub fn block_examples()
    ensures directive_at_the_top { written_of "EXEC SQL WHENEVER SQLERROR STOP;\nint x;"
        ≡ is "#line 2\nint x;\n" }
    ensures directive_in_a_block { written_of
        "int main(void) { EXEC SQL WHENEVER SQLERROR STOP;\n; }"
        ≡ is "#line 1\nint main(void)\n{\n#line 2\n;\n}\n" }
    ensures statement_in_a_block { written_of
        "EXEC SQL INCLUDE sqlca;\nint main(void) {\nEXEC SQL COMMIT; }" ≡ is
        "#line 2\nint main(void)\n{\n#line 3\n{\n#line 9\ncall(1);\n}\n}\n" }
    ensures statement_under_if { written_of
        "EXEC SQL INCLUDE sqlca;\nint main(void) {\nif (a)\nEXEC SQL COMMIT; else b = 1; }" ≡ is
        "#line 2\nint main(void)\n{\n#line 3\nif (a)\n#line 4\n{\n#line 9\ncall(1);\n}\nelse\n#line 4\nb = 1;\n}\n" }
    ensures statement_behind_a_label { written_of
        "EXEC SQL INCLUDE sqlca;\nint main(void) { l: EXEC SQL COMMIT; }" ≡ is
        "#line 2\nint main(void)\n{\n#line 2\nl:\n#line 2\n{\n#line 9\ncall(1);\n}\n}\n" }
{}

/// The members of a struct have the line on which they are written, which is that of what they are part of.
pub fn member_line_examples()
    ensures declaration { written_of "struct p {\nchar c;\nint n; } a;"
        ≡ is "#line 1\nstruct p { char c; int n; } a;\n" }
    ensures members_over_lines { is_read_back "struct p {\nchar c;\nint n; } a;" ≡ Ok true }
    ensures varchar_as_a_member { is_read_back "EXEC SQL struct p {\nVARCHAR v[5];\nint n; } a;"
        ≡ Ok true }
    ensures statement { is_read_back
        "int main(void) {\n\na = sizeof(struct {\nint m; }); }" ≡ Ok true }
    ensures condition_of_do { is_read_back
        "int main(void) { do { a = 1;\n\n\nb = 2; }\nwhile (a < sizeof(struct {\nint m; })); }"
        ≡ Ok true }
    ensures parameter { is_read_back "int f(int x,\nstruct {\nint m; } *p) { }" ≡ Ok true }
    ensures embedded { is_read_back
        "EXEC SQL INCLUDE sqlca;\nint main(void) { do\nEXEC SQL COMMIT; while (1); }" ≡ Ok true }
{}

/// One `if` for each condition with an action, in the order of NOT FOUND, SQLWARNING and SQLERROR, and each reads the
/// communication area anew (PostgreSQL manual, 36.8.1).
pub fn handler_examples()
    ensures in_order { tests_text (always stop_action) ≡ codes
        "#line 5\nif (sqlca.sqlcode == 100)\n#line 5\nexit(1);\n#line 5\nif (sqlca.sqlwarn[0] == 'W')\n#line 5\nexit(1);\n#line 5\nif (sqlca.sqlcode < 0)\n#line 5\nexit(1);\n" }
    ensures continue_is_nothing { tests_text (always continue_action) ≡ codes "" }
    ensures one_goes_to { tests_text (only NotFound (goto_action (codes "done")))
        ≡ codes "#line 5\nif (sqlca.sqlcode == 100)\n#line 5\ngoto done;\n" }
    ensures warning_prints { tests_text (only Warning print_action)
        ≡ codes "#line 5\nif (sqlca.sqlwarn[0] == 'W')\n#line 5\nsqlprint();\n" }
    ensures error_breaks { tests_text (only Error break_action)
        ≡ codes "#line 5\nif (sqlca.sqlcode < 0)\n#line 5\nbreak;\n" }
    ensures error_goes_on { tests_text (only Error next_action)
        ≡ codes "#line 5\nif (sqlca.sqlcode < 0)\n#line 5\ncontinue;\n" }
    ensures error_calls { tests_text
        (only Error (call_action (codes "f") (exprs (identifier (codes "x")) no_exprs)))
        ≡ codes "#line 5\nif (sqlca.sqlcode < 0)\n#line 5\nf(x);\n" }
{}
