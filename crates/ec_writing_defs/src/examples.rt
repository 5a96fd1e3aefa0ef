//! Each rule of the layout of written C, as the contracts of functions that do nothing: a tree and its text.

ghost use Rattle.std.specs.Prelude.{◌≡◌, true, false, negsuc, pos, [], ◌∷◌, codes, Some, None};
ghost use Rattle.ec_ctypes.specs.declared.types.arith.Arith.TheVariants.{UInt, Long, ULong, LLong, ULLong};
ghost use Rattle.ec_ctypes.specs.declared.tree.expr.UnOp.TheVariants as un;
ghost use Rattle.ec_ctypes.specs.declared.tree.expr.BinOp.TheVariants as bin;
ghost use Rattle.ec_ctypes.specs.trees.Exprs.{character, string, assign, bump, binary, unary, call, call_other, index, member, arrow, cast, size_type, size_expr, no_exprs, words, tagged, struct_base, varchar, open_dim, dim, no_dims, dims, one, many, no_inits, inits, some_init, no_init, declarator, no_declarators, declarators, decl, no_decls};
ghost use Rattle.ec_ctypes.specs.trees.Stmts.{empty_stmt, expr_stmt, block_stmt, if_stmt, while_stmt, do_stmt, for_stmt, break_stmt, continue_stmt, return_stmt, goto_stmt, label_stmt, decl_stmt, no_stmt, some_stmt};
ghost use Rattle.ec_ctypes.specs.trees.Units.{include_top, decl_top, UnitData};
ghost use Rattle.ec_writing_defs.specs.Examples.{expr_text, decl_text, stmt_text, top_text, int, typed, var, a, b, c, minus, sum, product, difference, on, int_words, one_item, declared, named, two_members, pair, at, list, arguments, function, param, example};
ghost use Rattle.ec_writing_defs.specs.Programs.{last_line, written_text};
ghost use Rattle.ec_writing_defs.specs.Shapes.{is_written_shape, is_written_expr, is_written_base, is_written_kind, is_written_top};

/// Each form of expression. Integers are decimal with the suffix of their type; one blank stands round binary and
/// assignment operators and after a comma, none after a unary operator or a cast; `sizeof` has one before an expression.
pub fn expression_examples()
    ensures suffixes { expr_text (call (codes "f") (arguments (int 0 ∷ typed 1 UInt ∷ typed 2 Long
        ∷ typed 3 ULong ∷ typed 4 LLong ∷ typed 255 ULLong ∷ [])))
        ≡ codes "f(0, 1U, 2L, 3UL, 4LL, 255ULL)" }
    ensures binary_operators { expr_text (binary bin.Or (binary bin.Shl a b) (binary bin.Ne b c))
        ≡ codes "a << b || b != c" }
    ensures assignments { expr_text (assign None a (assign (Some bin.Shr) b c))
        ≡ codes "a = b >>= c" }
    ensures unary_operators { expr_text (call (codes "f") (arguments (unary un.Addr a
        ∷ unary un.Deref a ∷ unary un.Plus a ∷ minus a ∷ unary un.Not a ∷ unary un.Flip a ∷ [])))
        ≡ codes "f(&a, *a, +a, -a, !a, ~a)" }
    ensures bumps { expr_text (sum (sum (bump true true a) (bump true false a))
        (sum (bump false true a) (bump false false a))) ≡ codes "++a + --a + (a++ + a--)" }
    ensures no_arguments { expr_text (call (codes "f") no_exprs) ≡ codes "f()" }
    ensures called { expr_text (call_other (index a (int 0)) (arguments (b ∷ [])))
        ≡ codes "a[0](b)" }
    ensures parts { expr_text (arrow (member (index a (sum b c)) (codes "m")) (codes "n"))
        ≡ codes "a[b + c].m->n" }
    ensures casts { expr_text (cast int_words 1 a) ≡ codes "(int *)a" }
    ensures no_stars { expr_text (cast (words (codes "unsigned" ∷ codes "long" ∷ [])) 0 a)
        ≡ codes "(unsigned long)a" }
    ensures sizes { expr_text (sum (size_type (tagged (codes "p")) 2) (size_expr a))
        ≡ codes "sizeof(struct p **) + sizeof a" }
{}

/// An operand has parentheses where its level is below that of its place, where a unary operator, a cast or `sizeof`
/// stands directly under another, and where it is an integer and a `.` follows. It has none elsewhere.
pub fn parentheses_examples()
    ensures looser { expr_text (product (sum a b) (sum b c)) ≡ codes "(a + b) * (b + c)" }
    ensures tighter { expr_text (sum (product a b) (product b c)) ≡ codes "a * b + b * c" }
    ensures to_the_left { expr_text (difference (difference a b) c) ≡ codes "a - b - c" }
    ensures to_the_right { expr_text (difference a (difference b c)) ≡ codes "a - (b - c)" }
    ensures left_of_assignment { expr_text (assign None (assign None a b) c)
        ≡ codes "(a = b) = c" }
    ensures operator_at_left { expr_text (assign None (sum a b) c) ≡ codes "a + b = c" }
    ensures assignment_inside { expr_text (sum a (assign None b c)) ≡ codes "a + (b = c)" }
    ensures argument { expr_text (call (codes "f") (arguments (assign None a b ∷ [])))
        ≡ codes "f(a = b)" }
    ensures index_is_whole { expr_text (index a (assign None b c)) ≡ codes "a[b = c]" }
    ensures indexed { expr_text (index (sum a b) c) ≡ codes "(a + b)[c]" }
    ensures twice_negative { expr_text (minus (minus a)) ≡ codes "-(-a)" }
    ensures under_a_cast { expr_text (cast int_words 0 (minus a)) ≡ codes "(int)(-a)" }
    ensures cast_under { expr_text (minus (cast int_words 0 a)) ≡ codes "-((int)a)" }
    ensures cast_twice { expr_text (cast int_words 0 (cast int_words 0 a))
        ≡ codes "(int)((int)a)" }
    ensures size_of_unary { expr_text (size_expr (unary un.Deref a)) ≡ codes "sizeof (*a)" }
    ensures size_of_bump { expr_text (size_expr (bump true true a)) ≡ codes "sizeof (++a)" }
    ensures unary_size { expr_text (minus (size_expr a)) ≡ codes "-(sizeof a)" }
    ensures bump_of_unary { expr_text (bump true true (unary un.Deref a)) ≡ codes "++(*a)" }
    ensures bumped_behind { expr_text (bump false true (unary un.Deref a)) ≡ codes "(*a)++" }
    ensures unary_postfix { expr_text (unary un.Deref (bump false true a)) ≡ codes "*a++" }
    ensures member_of_unary { expr_text (member (unary un.Deref a) (codes "m"))
        ≡ codes "(*a).m" }
    ensures unary_operand { expr_text (sum (minus a) (cast int_words 0 b))
        ≡ codes "-a + (int)b" }
    ensures member_of_integer { expr_text (member (int 1) (codes "x")) ≡ codes "(1).x" }
    ensures arrow_of_integer { expr_text (arrow (int 1) (codes "x")) ≡ codes "1->x" }
{}

/// Bytes 32 to 126 but the backslash and the own quote stand for themselves. All others are a backslash and three octal
/// digits.
pub fn quote_examples()
    ensures plain { expr_text (string (codes " az~")) ≡ codes "\" az~\"" }
    ensures empty { expr_text (string []) ≡ codes "\"\"" }
    ensures own_quote { expr_text (string (34 ∷ 39 ∷ [])) ≡ codes "\"\\042'\"" }
    ensures other_quote { expr_text (sum (character (pos 39)) (character (pos 34)))
        ≡ codes "'\\047' + '\"'" }
    ensures escapes { expr_text (string (0 ∷ 10 ∷ 31 ∷ 92 ∷ 127 ∷ 128 ∷ 255 ∷ []))
        ≡ codes "\"\\000\\012\\037\\134\\177\\200\\377\"" }
    ensures digit_behind { expr_text (string (1 ∷ 55 ∷ [])) ≡ codes "\"\\0017\"" }
    ensures negative { expr_text (sum (character (negsuc 0)) (character (negsuc 127)))
        ≡ codes "'\\377' + '\\200'" }
{}

/// Stars stand together directly before the name, with one blank before the first; the declarators of a declaration on
/// its line, with a comma and a blank between them; no blanks inside the braces of an initializer; members on one line.
pub fn declaration_examples()
    ensures stars { decl_text (declared int_words (one_item (named 2 "p"))) ≡ codes "int **p;" }
    ensures several { decl_text (declared int_words (declarators (named 0 "x")
        (declarators (named 1 "p") (one_item (declarator 0 (codes "t")
        (dims (dim (int 2)) (dims (dim (assign None a b)) no_dims)) no_init)))))
        ≡ codes "int x, *p, t[2][(a = b)];" }
    ensures open_length { decl_text (declared (words (codes "char" ∷ [])) (one_item
        (declarator 0 (codes "s") (dims open_dim no_dims) (some_init (one (string (codes "a")))))))
        ≡ codes "char s[] = \"a\";" }
    ensures braces { decl_text (declared int_words (one_item (declarator 0 (codes "t") no_dims
        (some_init (many (inits (one (assign None a b)) (inits (many (inits (one (int 2))
        no_inits)) no_inits)))))))
        ≡ codes "int t = {a = b, {2}};" }
    ensures none { decl_text (declared int_words no_declarators) ≡ codes "int;" }
    ensures words { decl_text (declared (words (codes "unsigned" ∷ codes "long" ∷ codes "int" ∷ []))
        (one_item (named 0 "n"))) ≡ codes "unsigned long int n;" }
    ensures tag { decl_text (declared (tagged (codes "p")) (one_item (named 1 "x")))
        ≡ codes "struct p *x;" }
    ensures members { decl_text (declared pair no_declarators)
        ≡ codes "struct p { char c; int n; };" }
    ensures no_tag { decl_text (declared (struct_base None two_members) (one_item (named 0 "x")))
        ≡ codes "struct { char c; int n; } x;" }
    ensures in_a_type { expr_text (size_type pair 1)
        ≡ codes "sizeof(struct p { char c; int n; } *)" }
{}

/// Every declaration, function and statement has a line `#line N` before it, and there is no indentation. The braces of
/// blocks have lines of their own; `if (e)`, `else`, `while (e)`, `do`, `for (a; b; c)` and `name:` have a line, and what
/// belongs to them follows.
pub fn statement_examples()
    ensures empty { stmt_text (at 7 empty_stmt) ≡ codes "#line 7\n;\n" }
    ensures expression { stmt_text (at 7 (expr_stmt (assign None a b)))
        ≡ codes "#line 7\na = b;\n" }
    ensures block { stmt_text (at 7 (block_stmt (list (at 8 (decl_stmt (decl int_words
        (one_item (named 0 "x")) false (on 8))) ∷ at 9 break_stmt ∷ []))))
        ≡ codes "#line 7\n{\n#line 8\nint x;\n#line 9\nbreak;\n}\n" }
    ensures nothing_in_it { stmt_text (at 7 (block_stmt (list []))) ≡ codes "#line 7\n{\n}\n" }
    ensures only_if { stmt_text (at 7 (if_stmt a (at 8 continue_stmt) no_stmt))
        ≡ codes "#line 7\nif (a)\n#line 8\ncontinue;\n" }
    ensures else_if { stmt_text (at 7 (if_stmt a (at 8 break_stmt) (some_stmt (at 9 (if_stmt b
        (at 10 break_stmt) (some_stmt (at 11 empty_stmt)))))))
        ≡ codes "#line 7\nif (a)\n#line 8\nbreak;\nelse\n#line 9\nif (b)\n#line 10\nbreak;\nelse\n#line 11\n;\n" }
    ensures whiles { stmt_text (at 7 (while_stmt a (at 8 empty_stmt)))
        ≡ codes "#line 7\nwhile (a)\n#line 8\n;\n" }
    ensures dos { stmt_text (at 7 (do_stmt (at 8 empty_stmt) a))
        ≡ codes "#line 7\ndo\n#line 8\n;\nwhile (a);\n" }
    ensures fors { stmt_text (at 7 (for_stmt (Some a) (Some b) (Some c) (at 8 empty_stmt)))
        ≡ codes "#line 7\nfor (a; b; c)\n#line 8\n;\n" }
    ensures no_parts { stmt_text (at 7 (for_stmt None None None (at 8 empty_stmt)))
        ≡ codes "#line 7\nfor (; ; )\n#line 8\n;\n" }
    ensures label { stmt_text (at 7 (label_stmt (codes "end") (at 8 (goto_stmt (codes "end")))))
        ≡ codes "#line 7\nend:\n#line 8\ngoto end;\n" }
    ensures returns { stmt_text (at 7 (return_stmt None)) ≡ codes "#line 7\nreturn;\n" }
    ensures returned { stmt_text (at 7 (return_stmt (Some a))) ≡ codes "#line 7\nreturn a;\n" }
{}

/// A function without parameters has `(void)`, and its body's brace no line `#line N`. A program begins with two
/// `#include` lines; this one selects into a variable by a call of the library.
pub fn program_example()
    ensures no_parameters { top_text (function [] None) ≡ codes "#line 7\nint f(void);\n" }
    ensures parameters { top_text (function (param 0 (Some (codes "x")) no_dims
        ∷ param 1 None no_dims ∷ param 1 (Some (codes "t")) (dims open_dim no_dims) ∷ []) None)
        ≡ codes "#line 7\nint f(int x, int *, int *t[]);\n" }
    ensures body { top_text (function [] (Some (list []))) ≡ codes "#line 7\nint f(void)\n{\n}\n" }
    ensures include { top_text (include_top (codes "#include <a.h>")) ≡ codes "#include <a.h>\n" }
    ensures text { written_text example
        ≡ codes "#include <ecpglib.h>\n#include <sqlca.h>\n#line 1\nint x;\n#line 2\nint main(void)\n{\n#line 3\n{\n#line 3\nECPGdo(3, NULL, ECPGst_normal, \"SELECT a FROM t\", ECPGt_EOIT, ECPGt_int, &x, 0L, 1L, 4L, ECPGt_NO_INDICATOR, NULL, 0L, 0L, 0L, ECPGt_EORT);\n}\n#line 4\nprintf(\"%d\\012\", x);\n#line 5\nreturn 0;\n}\n" }
    ensures shape { is_written_shape example ≡ true }
    ensures last { last_line example ≡ 7 }
{}

/// Which trees can be written so that they are read back.
pub fn shape_examples()
    ensures keyword { is_written_expr 7 (var "while") ≡ false }
    ensures left_out { is_written_expr 7 (var "switch") ≡ false }
    ensures area_word { is_written_expr 7 (var "SQLCODE") ≡ false }
    ensures area_member { is_written_expr 7 (member a (codes "SQLCODE")) ≡ true }
    ensures too_great { is_written_expr 7 (int 2147483648) ≡ false }
    ensures fitting { is_written_expr 7 (typed 2147483648 UInt) ≡ true }
    ensures no_byte { is_written_expr 7 (string (256 ∷ [])) ≡ false }
    ensures no_character { is_written_expr 7 (character (pos 128)) ≡ false }
    ensures no_assignment { is_written_expr 7 (assign (Some bin.Lt) a b) ≡ false }
    ensures no_words { is_written_base 7 (words []) ≡ false }
    ensures varchar { is_written_base 7 varchar ≡ false }
    ensures members { is_written_base 7 pair ≡ true }
    ensures other_line { is_written_base 8 pair ≡ false }
    ensures no_members { is_written_base 7 (struct_base None no_decls) ≡ false }
    ensures starts_embedded { is_written_base 7 (tagged (codes "exec")) ≡ false }
    ensures in_braces { is_written_top (decl_top (declared int_words (one_item (declarator 0
        (codes "t") no_dims (some_init (many no_inits)))))) ≡ false }
    ensures dangling { is_written_kind 7 (if_stmt a (at 8 (while_stmt b (at 9 (if_stmt c
        (at 10 empty_stmt) no_stmt)))) (some_stmt (at 11 empty_stmt))) ≡ false }
    ensures in_a_block { is_written_kind 7 (if_stmt a (at 8 (block_stmt (list (at 9 (if_stmt c
        (at 10 empty_stmt) no_stmt) ∷ [])))) (some_stmt (at 11 empty_stmt))) ≡ true }
    ensures behind_a_body { is_written_kind 7 (do_stmt (at 3 empty_stmt) (size_type
        (struct_base None no_decls) 0)) ≡ false }
    ensures condition_line { is_written_kind 7 (do_stmt (at 3 empty_stmt) (size_type pair 0))
        ≡ false }
    ensures its_line { is_written_kind 9 (do_stmt (at 6 empty_stmt) (size_type pair 0)) ≡ true }
    ensures lone_void { is_written_top (function (record {
      base = words (codes "void" ∷ []);
      stars = 0;
      name = None;
      dims = no_dims;
      section = false;
    } ∷ []) None) ≡ false }
    ensures no_line { is_written_top (decl_top (decl int_words no_declarators false (on 0)))
        ≡ false }
    ensures include { is_written_top (include_top (codes "#include <a.h>")) ≡ true }
    ensures comment { is_written_top (include_top (codes "#include <a.h> // a")) ≡ false }
    ensures embedded { is_written_top (include_top (codes "#include <a> EXEC SQL")) ≡ false }
    ensures one_word { is_written_top (include_top (codes "#include <execsql.h>")) ≡ true }
    ensures longer { is_written_top (include_top (codes "#include <EXEC SQLS>")) ≡ true }
    ensures quoted { is_written_top (include_top (codes "#include \"EXEC SQL\"")) ≡ true }
    ensures callee { is_written_expr 7 (call_other (member a (codes "m")) no_exprs) ≡ true }
    ensures called_name { is_written_expr 7 (call_other a no_exprs) ≡ false }
    ensures section { is_written_top (decl_top (decl int_words no_declarators true (on 7)))
        ≡ false }
{}
