//! What the grammar derives, as the contracts of functions that do nothing. In the texts a blank stands between any two
//! tokens, and each text has exactly the readings that are listed.

ghost use Rattle.std.specs.Prelude.{◌≡◌, true, false, List, [], ◌∷◌, Option, Some, None, codes};
ghost use Rattle.ec_base.specs.declared.fault.FaultKind.TheVariants.{F7};
ghost use Rattle.ec_base.specs.declared.fault.LimitKind.TheVariants.{L3};
ghost use Rattle.ec_base.specs.declared.stop.Stop.TheVariants.{Refused, Limit};
ghost use Rattle.ec_ctypes.specs.declared.tree.expr.BinOp.TheVariants as bin;
ghost use Rattle.ec_ctypes.specs.trees.Exprs.{binary, assign, bump, call, call_other, index, member, cast, size_type, size_expr, no_exprs, exprs, open_dim, no_dims, dims, one, many, no_inits, inits, no_init, some_init, decl, no_declarators};
ghost use Rattle.ec_ctypes.specs.trees.Stmts.{block_stmt, if_stmt, for_stmt, decl_stmt, no_stmts, stmts, no_stmt, some_stmt};
ghost use Rattle.ec_ctypes.specs.trees.Units.{decl_top, mark_top};
ghost use Rattle.ec_language.specs.Productions.{unit};
ghost use Rattle.ec_language.specs.ReadSyntax.{fits, unreached};
ghost use Rattle.ec_language.specs.Syntax.{limits};
ghost use Rattle.ec_language.specs.SyntaxAnswer.{trees_of, syntax_stop};
ghost use Rattle.ec_language.specs.SyntaxExamples.{tokens_in, body_in, opened, first_line, int_base, id, area, int_value, on_first, empty, unit_of, doing, computing, declaring, nesting_of, operations_of, derivations_of, stop_within};

/// `else` belongs to the nearest `if`, and a loop with a declaration is a block.
pub fn statement_examples()
    ensures nearest { trees_of (body_in "if ( a ) if ( b ) ; else ;")
        ≡ doing (if_stmt (id "a") (on_first (if_stmt (id "b") empty (some_stmt empty))) no_stmt)
        ∷ [] }
    ensures loop_with_declaration { trees_of (body_in "for ( int i = 0 ; i < 3 ; i ++ ) ;")
        ≡ doing
        (block_stmt
        (stmts (on_first (decl_stmt (declaring "i" no_dims (some_init (one (int_value 0))) false)))
        (stmts
        (on_first
        (for_stmt None (Some (binary bin.Lt (id "i") (int_value 3)))
        (Some (bump false true (id "i"))) empty)) no_stmts))) ∷ [] }
    ensures label_at_brace { syntax_stop (tokens_in "int main ( void ) { l :\n }\n")
        ≡ Some (Refused F7 (record { 0 = 2 })) }
    ensures no_semicolon { syntax_stop (tokens_in "int main ( void ) { return 0\n }\n")
        ≡ Some (Refused F7 (record { 0 = 2 })) }
    ensures no_closing_brace { syntax_stop (tokens_in "int main ( void ) {\n ;\n")
        ≡ Some (Refused F7 (record { 0 = 3 })) }
{}

/// Casts, parentheses and `sizeof`; to the left and to the right; calls; `SQLCODE` and `SQLSTATE`.
pub fn expression_examples()
    ensures a_cast { trees_of (body_in "( int ) x ;") ≡ computing (cast int_base 0 (id "x")) ∷ [] }
    ensures parentheses { trees_of (body_in "( x ) ;") ≡ computing (id "x") ∷ [] }
    ensures size_of_type { trees_of (body_in "sizeof ( int ) ;")
        ≡ computing (size_type int_base 0) ∷ [] }
    ensures size_of_parentheses { trees_of (body_in "sizeof ( x ) ;")
        ≡ computing (size_expr (id "x")) ∷ [] }
    ensures size_of_name { trees_of (body_in "sizeof x ;") ≡ computing (size_expr (id "x")) ∷ [] }
    ensures to_the_left { trees_of (body_in "a - b - c ;") ≡ computing
        (binary bin.Sub (binary bin.Sub (id "a") (id "b")) (id "c")) ∷ [] }
    ensures to_the_right { trees_of (body_in "a = b = c ;")
        ≡ computing (assign None (id "a") (assign None (id "b") (id "c"))) ∷ [] }
    ensures ranks { trees_of (body_in "a + b * c ;") ≡ computing
        (binary bin.Add (id "a") (binary bin.Mul (id "b") (id "c"))) ∷ [] }
    ensures call_by_name { trees_of (body_in "f ( x ) ;") ≡ computing
        (call (codes "f") (exprs (id "x") no_exprs)) ∷ [] }
    ensures code { trees_of (body_in "SQLCODE + SQLSTATE [ 0 ] ;")
        ≡ computing (binary bin.Add (area "sqlcode") (index (area "sqlstate") (int_value 0))) ∷ [] }
    ensures code_called { trees_of (body_in "SQLCODE ( ) ;")
        ≡ computing (call_other (area "sqlcode") no_exprs) ∷ [] }
    ensures other_case { trees_of (body_in "sqlcode ;") ≡ computing (id "sqlcode") ∷ [] }
    ensures member_of_that_name { trees_of (body_in "x . SQLCODE ;")
        ≡ computing (member (id "x") (codes "SQLCODE")) ∷ [] }
    ensures other_call { trees_of (body_in "( f ) ( x ) ;")
        ≡ computing (call_other (id "f") (exprs (id "x") no_exprs)) ∷ [] }
{}

/// What declarations and sections are.
pub fn declaration_examples()
    ensures base_alone { trees_of (tokens_in "int ;") ≡ unit_of
        (decl_top (decl int_base no_declarators false first_line) ∷ []) ∷ [] }
    ensures last_comma { trees_of (tokens_in "int a [ ] = { 1 , 2 , } ;")
        ≡ unit_of
        (decl_top
        (declaring "a" (dims open_dim no_dims)
        (some_init (many (inits (one (int_value 1)) (inits (one (int_value 2)) no_inits)))) false)
        ∷ []) ∷ [] }
    ensures sections { trees_of (tokens_in "BEGIN int a ; END int b ;")
        ≡ unit_of
        (mark_top true first_line ∷ decl_top (declaring "a" no_dims no_init true)
        ∷ mark_top false first_line ∷ decl_top (declaring "b" no_dims no_init false) ∷ []) ∷ [] }
    ensures function_in_a_list { syntax_stop (tokens_in "int f ( )\n ,\n g ;")
        ≡ Some (Refused F7 (record { 0 = 2 })) }
    ensures name_in_parentheses { syntax_stop (tokens_in "int\n (\n * p ) ;")
        ≡ Some (Refused F7 (record { 0 = 2 })) }
{}

/// Limits of nesting, of operators and of stars and lengths. At one token the fault comes before the limit. An `else`
/// hangs at the nearest `if` at a limit too, so the brace behind it is too deep, before the parenthesis is a fault.
pub fn nesting_examples()
    ensures nested { stop_within (nesting_of 3) (tokens_in "int main ( ) { { { } } }") ≡ None }
    ensures nested_deeper { stop_within (nesting_of 3) (tokens_in "int main ( ) { { {\n { } } } }")
        ≡ Some (Limit L3) }
    ensures dead_and_deeper { stop_within (nesting_of 3)
        (tokens_in "int main ( ) { { { a =\n {\n } } } }") ≡ Some (Refused F7 (record { 0 = 2 })) }
    ensures inner_else { stop_within (nesting_of 4)
        (tokens_in "int f ( ) { if ( a ) if ( b ) ; else { } }") ≡ None }
    ensures inner_else_deeper { stop_within (nesting_of 3)
        (tokens_in "int f ( ) { if ( a ) if ( b ) ; else {\n )\n } }") ≡ Some (Limit L3) }
    ensures counted { stop_within (operations_of 2) (tokens_in "int a = b + c + d ;") ≡ None }
    ensures counted_higher { stop_within (operations_of 1) (tokens_in "int a = b + c + d ;")
        ≡ Some (Limit L3) }
    ensures derived { stop_within (derivations_of 3) (tokens_in "int * * p [ 2 ] ;") ≡ None }
    ensures derived_higher { stop_within (derivations_of 2) (tokens_in "int * * p [ 2 ] ;")
        ≡ Some (Limit L3) }
    ensures within { fits limits unit (opened 64) ≡ true }
    ensures passed { fits limits unit (opened 65) ≡ false }
    ensures goes_on { fits (unreached (opened 65)) unit (opened 65) ≡ true }
{}
