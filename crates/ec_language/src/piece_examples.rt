//! What C text and SQL text are made of, as the contracts of functions that do nothing.

ghost use Rattle.std.specs.Prelude.{◌≡◌, ℕ, true, false, [], ◌∷◌, codes, Some, None, List};
ghost use Rattle.ec_base.specs.declared.fault.FaultKind.TheVariants.{F1, F2, F3};
ghost use Rattle.ec_language.specs.CText.{is_word, is_block_comment, is_quoted};
ghost use Rattle.ec_language.specs.SqlText.{is_sql_quoted, is_escaped, is_sql_comment};
ghost use Rattle.ec_language.specs.Pieces.{behind_start, Pieces};
ghost use Rattle.ec_language.specs.PieceFaults.{PieceFault};
ghost use Rattle.ec_language.specs.ReadPieces.{piece_of};
ghost use Rattle.ec_ctypes.specs.declared.text.piece.PieceKind.TheVariants.{C, Emb, InPlace, SectionStart, SectionEnd};

/// Words, numbers, comments and quotes.
pub fn letter_examples()
    ensures word { is_word (codes "_a1") ≡ true }
    ensures no_word { is_word (codes "1a") ≡ false }
    ensures comment { is_block_comment (codes "/* a * / **/") ≡ true }
    ensures two_comments { is_block_comment (codes "/**/*/") ≡ false }
    ensures slash_star_slash { is_block_comment (codes "/*/") ≡ false }
    ensures quoted { is_quoted (codes "'\\''") ≡ true }
    ensures two_quoted { is_quoted (codes "''''") ≡ false }
    ensures doubled { is_sql_quoted (codes "''''") ≡ true }
    ensures escaped { is_escaped (codes "e'a''\\' '") ≡ true }
    ensures nested { is_sql_comment (codes "/*/**/*/") ≡ true }
    ensures not_nested { is_sql_comment (codes "/*/**/") ≡ false }
    ensures start { behind_start (codes "exec\n\tSql;") ≡ Some (codes ";") }
    ensures no_start { behind_start (codes "EXECSQL;") ≡ None }
    ensures longer { behind_start (codes "EXEC SQLx;") ≡ None }
{}

/// What the pieces of a text are.
pub fn text_examples()
    ensures four { Pieces
        (codes
        "EXEC SQL int x;\nint main(void) {\nEXEC SQL SELECT a FROM t INTO :x;\nprintf(\"%d\\n\", x);\nreturn 0;\n}\n")
        (piece_of InPlace (codes "EXEC SQL int x;") 1 ∷ piece_of C (codes "\nint main(void) {\n") 1
        ∷ piece_of Emb (codes "EXEC SQL SELECT a FROM t INTO :x;") 3
        ∷ piece_of C (codes "\nprintf(\"%d\\n\", x);\nreturn 0;\n}\n") 3 ∷ []) }
    ensures comment_between { Pieces (codes "EXEC /* c */ SQL a;")
        (piece_of C (codes "EXEC /* c */ SQL a;") 1 ∷ []) }
    ensures newline_between { Pieces (codes "exec\nSQL COMMIT;\n")
        (piece_of Emb (codes "exec\nSQL COMMIT;") 1 ∷ piece_of C (codes "\n") 2 ∷ []) }
    ensures in_words { Pieces (codes "xEXEC SQL a; EXEC SQLx; EXECSQL a;")
        (piece_of C (codes "xEXEC SQL a; EXEC SQLx; EXECSQL a;") 1 ∷ []) }
    ensures in_comments { Pieces (codes "/* EXEC SQL a; */ // EXEC SQL a;\n")
        (piece_of C (codes "/* EXEC SQL a; */ // EXEC SQL a;\n") 1 ∷ []) }
    ensures in_quotes { Pieces (codes "\"\\\"EXEC SQL a;\" 'EXEC SQL b;'")
        (piece_of C (codes "\"\\\"EXEC SQL a;\" 'EXEC SQL b;'") 1 ∷ []) }
    ensures sql_quotes { Pieces (codes "EXEC SQL SELECT ';', \"a;\"\";\", 'it''s;';x")
        (piece_of Emb (codes "EXEC SQL SELECT ';', \"a;\"\";\", 'it''s;';") 1
        ∷ piece_of C (codes "x") 1 ∷ []) }
    ensures escape { Pieces (codes "EXEC SQL SELECT E'\\';';x")
        (piece_of Emb (codes "EXEC SQL SELECT E'\\';';") 1 ∷ piece_of C (codes "x") 1 ∷ []) }
    ensures no_escape { Pieces (codes "EXEC SQL SELECT xE'\\';x")
        (piece_of Emb (codes "EXEC SQL SELECT xE'\\';") 1 ∷ piece_of C (codes "x") 1 ∷ []) }
    ensures sql_comments { Pieces (codes "EXEC SQL a -- ;\n /* ; /* ; */ ; */;x")
        (piece_of Emb (codes "EXEC SQL a -- ;\n /* ; /* ; */ ; */;") 1 ∷ piece_of C (codes "x") 2
        ∷ []) }
    ensures braces { Pieces (codes "EXEC SQL struct { int a; } s;x")
        (piece_of InPlace (codes "EXEC SQL struct { int a; } s;") 1
        ∷ piece_of C (codes "x") 1 ∷ []) }
    ensures lone_brace { Pieces (codes "EXEC SQL int } x; y;")
        (piece_of InPlace (codes "EXEC SQL int } x;") 1 ∷ piece_of C (codes " y;") 1 ∷ []) }
    ensures c_inside { Pieces
        (codes "EXEC SQL char /* ; */ c = ';', d = \"\\\";\" // ; EXEC SQL\n ;x")
        (piece_of InPlace (codes "EXEC SQL char /* ; */ c = ';', d = \"\\\";\" // ; EXEC SQL\n ;") 1
        ∷ piece_of C (codes "x") 2 ∷ []) }
    ensures comment_first { Pieces (codes "EXEC SQL /* c */ int x;")
        (piece_of InPlace (codes "EXEC SQL /* c */ int x;") 1 ∷ []) }
    ensures no_type_first { Pieces (codes "EXEC SQL (int x;")
        (piece_of Emb (codes "EXEC SQL (int x;") 1 ∷ []) }
    ensures section { Pieces
        (codes "EXEC SQL Begin /* c */ declare SECTION;EXEC SQL END DECLARE SECTION ;")
        (piece_of SectionStart (codes "EXEC SQL Begin /* c */ declare SECTION;") 1
        ∷ piece_of SectionEnd (codes "EXEC SQL END DECLARE SECTION ;") 1 ∷ []) }
{}

/// Which fault a text has.
pub fn fault_examples()
    ensures open_quote { PieceFault (codes "int main(void) { char c = 'a") F2 1 }
    ensures open_comment { PieceFault (codes "\n/* x") F1 2 }
    ensures open_statement { PieceFault (codes "x\nEXEC SQL\nCOMMIT") F3 2 }
    ensures start_alone { PieceFault (codes "EXEC SQL") F3 1 }
    ensures cut_quote { PieceFault (codes "\nchar c = 'a\n';") F2 2 }
    ensures cut_behind_backslash { PieceFault (codes "\"a\\\n\"") F2 1 }
    ensures comment_in_statement { PieceFault (codes "\nEXEC SQL SELECT\n/* ;") F3 2 }
    ensures quote_in_statement { PieceFault (codes "\nEXEC SQL SELECT\n' ;") F3 2 }
    ensures comment_in_declaration { PieceFault (codes "\nEXEC SQL int\n/* ;") F3 2 }
    ensures quote_in_declaration { PieceFault (codes "EXEC SQL\nchar c = 'a\n;") F2 2 }
    ensures quote_and_no_end { PieceFault (codes "EXEC SQL\nchar c = 'a\n") F3 1 }
    ensures behind_pieces { PieceFault (codes "EXEC SQL int x;\n\nEXEC SQL COMMIT;\n/* x") F1 4 }
{}
