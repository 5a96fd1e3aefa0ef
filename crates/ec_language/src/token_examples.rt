//! What tokens are worth, as the contracts of functions that do nothing.

ghost use Rattle.std.specs.Prelude.{◌≡◌, ℕ, ◌^◌, ◌-◌, ◌++◌, pos, negsuc, true, false, List, [], ◌∷◌, codes, Some, None, Ok, Err};
ghost use Rattle.ec_base.specs.declared.fault.FaultKind.{FaultKind};
ghost use Rattle.ec_base.specs.declared.fault.FaultKind.TheVariants.{F4, F5, F6, F9};
ghost use Rattle.ec_base.specs.declared.fault.LimitKind.TheVariants.{L2};
ghost use Rattle.ec_base.specs.declared.stop.Stop.TheVariants.{Refused, Limit};
ghost use Rattle.ec_ctypes.specs.declared.text.piece.PieceKind.TheVariants.{C, Emb, InPlace};
ghost use Rattle.ec_ctypes.specs.declared.types.arith.Arith.TheVariants.{Int, UInt, Long, ULong, ULLong};
ghost use Rattle.ec_ctypes.specs.declared.text.token.Punct.TheVariants as mark;
ghost use Rattle.ec_ctypes.specs.trees.Tokens.{TokData, emb_token, section_start, section_end, end_token};
ghost use Rattle.ec_language.specs.Constants.{integer_constant, character_value, string_value};
ghost use Rattle.ec_language.specs.Lexemes.{class_of, word, punct};
ghost use Rattle.ec_language.specs.SqlTokens as sql;
ghost use Rattle.ec_language.specs.Tokens.{Part, token, numbered, sql_answer};
ghost use Rattle.ec_language.specs.ReadTokens.{sql_units};
ghost use Rattle.ec_language.specs.TokenRows.{c_alone, c_text, statement_text, on_line, tokens_are, refused, name, literal, included, sign, int_token, sql_token, sql_tokens_in, Gives, SourceGives};

/// The values and types of integer constants.
pub fn integer_examples()
    ensures zero { integer_constant (codes "0") ≡ Some (0, Int) }
    ensures greatest_int { integer_constant (codes "0x7fffffff") ≡ Some (2 ^ 31 - 1, Int) }
    ensures unsigned_int { integer_constant (codes "0x80000000") ≡ Some (2 ^ 31, UInt) }
    ensures long { integer_constant (codes "2147483648") ≡ Some (2 ^ 31, Long) }
    ensures unsigned_long { integer_constant (codes "0xffffffffffffffff")
        ≡ Some (2 ^ 64 - 1, ULong) }
    ensures too_great { integer_constant (codes "18446744073709551616") ≡ None }
    ensures unsigned_long_long { integer_constant (codes "1ULL") ≡ Some (1, ULLong) }
    ensures mixed_suffix { integer_constant (codes "1LUL") ≡ None }
    ensures mixed_case { integer_constant (codes "1lL") ≡ None }
    ensures octal { integer_constant (codes "0777") ≡ Some (511, Int) }
    ensures no_octal { integer_constant (codes "0779") ≡ None }
    ensures eight { integer_constant (codes "08") ≡ None }
    ensures floating { integer_constant (codes "3.") ≡ None }
    ensures no_digits { integer_constant (codes "0x") ≡ None }
{}

/// The values of characters and strings.
pub fn character_examples()
    ensures hexadecimal { character_value (codes "'\\x41'") ≡ Some (pos 65) }
    ensures signed { character_value (codes "'\\377'") ≡ Some (negsuc 0) }
    ensures too_great { character_value (codes "'\\400'") ≡ None }
    ensures two { character_value (codes "'ab'") ≡ None }
    ensures none { character_value (codes "''") ≡ None }
    ensures quote { character_value (codes "'\\''") ≡ Some (pos 39) }
    ensures two_digits { string_value (codes "\"\\x414\"") ≡ Some (codes "A4") }
    ensures three_digits { string_value (codes "\"\\1234\"") ≡ Some (codes "S4") }
    ensures unknown { string_value (codes "\"\\q\"") ≡ None }
    ensures class_word { class_of (codes "int") ≡ Some word }
    ensures class_mark { class_of (codes "<<=") ≡ Some (punct mark.ShlAssign) }
    ensures class_none { class_of (codes "+++") ≡ None }
{}

/// Marks are as long as they can be, and blanks part them.
pub fn mark_examples()
    ensures three { Gives false (c_text "x<<=1")
        (tokens_are (on_line 1 (name "x" ∷ sign mark.ShlAssign ∷ int_token 1 ∷ end_token ∷ []))) }
    ensures two_then_one { Gives false (c_text "a+++b")
        (tokens_are
        (on_line 1 (name "a" ∷ sign mark.PlusPlus ∷ sign mark.Plus ∷ name "b" ∷ end_token ∷ []))) }
    ensures parted { Gives false (c_text "a- >b")
        (tokens_are
        (on_line 1 (name "a" ∷ sign mark.Minus ∷ sign mark.Greater ∷ name "b" ∷ end_token ∷ []))) }
    ensures comment { Gives false (c_text "a/**/b//c")
        (tokens_are (on_line 1 (name "a" ∷ name "b" ∷ end_token ∷ []))) }
    ensures not_octal { Gives false (c_text "int a = 08;") (refused F5 1) }
{}

/// Neighbouring strings are one, on the line of the first.
pub fn string_examples()
    ensures over_comment { Gives false (c_text "\"a\" /* c */ \"b\"")
        (tokens_are (on_line 1 (literal "ab" ∷ end_token ∷ []))) }
    ensures over_line { Gives false (c_text "\"a\"\n\"b\"")
        (tokens_are (on_line 1 (literal "ab" ∷ []) ++ on_line 2 (end_token ∷ []))) }
    ensures three { Gives false (c_text "\"a\"\n\"b\"\n\"c\";")
        (tokens_are
        (on_line 1 (literal "abc" ∷ []) ++ on_line 3 (sign mark.Semicolon ∷ end_token ∷ []))) }
    ensures bad_second { Gives false (c_text "\"a\"\n\"\\q\"") (refused F6 2) }
{}

/// Lines that begin with `#`.
pub fn line_examples()
    ensures include { Gives false (c_text "  #include <a.h> /* c */\nx")
        (tokens_are
        (on_line 1 (included "#include <a.h> " ∷ []) ++ on_line 2 (name "x" ∷ end_token ∷ []))) }
    ensures include_quoted { Gives false (c_text "#include \"//.h\"\n")
        (tokens_are (on_line 1 (included "#include \"//.h\"" ∷ []) ++ on_line 2 (end_token ∷ []))) }
    ensures parted { Gives false (c_text "# include <a.h>\n") (refused F9 1) }
    ensures define { Gives false (c_text "\n#define A 1\n") (refused F9 2) }
    ensures not_first { Gives false (c_text "a # b") (refused F4 1) }
    ensures include_not_first { Gives false (c_text "a #include <a.h>\n") (refused F4 1) }
    ensures line_of_source { Gives false (c_text "#line 7\nint x;") (refused F9 1) }
{}

/// What is left out, and bytes that begin nothing.
pub fn left_out_examples()
    ensures conditional { Gives false (c_text "x ? y : z") (refused F9 1) }
    ensures variable_number { Gives false (c_text "int f(...);") (refused F9 1) }
    ensures word_left_out { Gives false (c_text "{\nswitch (x) {}") (refused F9 2) }
    ensures longer_word { Gives false (c_text "switches")
        (tokens_are (on_line 1 (name "switches" ∷ end_token ∷ []))) }
    ensures at { Gives false (c_text "a @ b") (refused F4 1) }
    ensures splice { Gives false (c_text "a \\\nb") (refused F4 1) }
    ensures dollar { Gives false (c_text "a$b") (refused F4 1) }
    ensures foreign { Gives false (c_alone (200 ∷ [])) (refused F4 1) }
{}

/// Written C.
pub fn written_examples()
    ensures line { Gives true (c_text "#line 7\nint x;")
        (tokens_are (on_line 7 (name "int" ∷ name "x" ∷ sign mark.Semicolon ∷ end_token ∷ []))) }
    ensures last_line { Gives true (c_text "x\n#line 7")
        (tokens_are (on_line 1 (name "x" ∷ []) ++ on_line 2 (end_token ∷ []))) }
    ensures leading_zero { Gives true (c_text "#line 07\nint x;") (refused F9 1) }
    ensures embedded { Gives true (statement_text "EXEC SQL COMMIT;") (refused F9 1) }
    ensures head { Gives true (c_text "#include <ecpglib.h>\n#include <sqlca.h>\nx")
        (tokens_are (on_line 3 (name "x" ∷ end_token ∷ []))) }
    ensures half_head { Gives true (c_text "#include <ecpglib.h>\nx")
        (tokens_are
        (on_line 1 (included "#include <ecpglib.h>" ∷ [])
        ++ on_line 2 (name "x" ∷ end_token ∷ []))) }
    ensures late_head { Gives true (c_text ";\n#include <ecpglib.h>\n#include <sqlca.h>")
        (tokens_are
        (on_line 1 (sign mark.Semicolon ∷ []) ++ on_line 2 (included "#include <ecpglib.h>" ∷ [])
        ++ on_line 3 (included "#include <sqlca.h>" ∷ end_token ∷ []))) }
    ensures head_of_source { Gives false (c_text "#include <ecpglib.h>\n#include <sqlca.h>")
        (tokens_are
        (on_line 1 (included "#include <ecpglib.h>" ∷ [])
        ++ on_line 2 (included "#include <sqlca.h>" ∷ end_token ∷ []))) }
{}

/// Embedded statements.
pub fn embedded_examples()
    ensures statement { Gives false (statement_text "EXEC SQL COMMIT;")
        (tokens_are (on_line 1 (emb_token 0 true ∷ end_token ∷ []))) }
    ensures directive { Gives false (statement_text "EXEC SQL /* c */ whenever sqlerror stop;")
        (tokens_are (on_line 1 (emb_token 0 false ∷ end_token ∷ []))) }
    ensures parameter { Gives false (statement_text "EXEC SQL SELECT\n$1;") (refused F4 2) }
    ensures parameter_line { Gives false (statement_text "EXEC\nSQL\nSELECT $1;") (refused F4 3) }
    ensures dollar_in_word { Gives false (statement_text "EXEC SQL SELECT a$b;")
        (tokens_are (on_line 1 (emb_token 0 true ∷ end_token ∷ []))) }
{}

/// The tokens of whole sources.
pub fn source_examples()
    ensures program { SourceGives
        (codes
        "EXEC SQL int x;\nint main(void) {\nEXEC SQL SELECT a FROM t INTO :x;\nprintf(\"%d\\n\", x);\nreturn 0;\n}\n")
        (tokens_are
        (on_line 1 (section_start ∷ name "int" ∷ name "x" ∷ sign mark.Semicolon ∷ section_end ∷ [])
        ++ on_line 2
        (name "int" ∷ name "main" ∷ sign mark.LeftParen ∷ name "void" ∷ sign mark.RightParen
        ∷ sign mark.LeftBrace ∷ []) ++ on_line 3 (emb_token 0 true ∷ [])
        ++ on_line 4
        (name "printf" ∷ sign mark.LeftParen ∷ literal "%d\n" ∷ sign mark.Comma ∷ name "x"
        ∷ sign mark.RightParen ∷ sign mark.Semicolon ∷ [])
        ++ on_line 5 (name "return" ∷ int_token 0 ∷ sign mark.Semicolon ∷ [])
        ++ on_line 6 (sign mark.RightBrace ∷ []) ++ on_line 7 (end_token ∷ []))) }
    ensures declaration { SourceGives (codes "EXEC SQL\nint x\n;y")
        (tokens_are
        (on_line 1 (section_start ∷ []) ++ on_line 2 (name "int" ∷ name "x" ∷ [])
        ++ on_line 3 (sign mark.Semicolon ∷ section_end ∷ name "y" ∷ end_token ∷ []))) }
    ensures section { SourceGives
        (codes "EXEC SQL BEGIN DECLARE SECTION;\nint a;\nEXEC SQL END DECLARE SECTION;")
        (tokens_are
        (on_line 1 (section_start ∷ []) ++ on_line 2
        (name "int" ∷ name "a" ∷ sign mark.Semicolon ∷ [])
        ++ on_line 3 (section_end ∷ end_token ∷ []))) }
    ensures statements { SourceGives (codes "EXEC SQL COMMIT\n;EXEC SQL DECLARE c CURSOR FOR x;")
        (tokens_are
        (on_line 1 (emb_token 0 true ∷ []) ++ on_line 2 (emb_token 1 false ∷ end_token ∷ []))) }
    ensures line_before_start { SourceGives (codes "EXEC SQL int\n#include EXEC SQL\nx;")
        (tokens_are
        (on_line 1 (section_start ∷ name "int" ∷ [])
        ++ on_line 2 (included "#include " ∷ name "EXEC" ∷ name "SQL" ∷ [])
        ++ on_line 3 (name "x" ∷ sign mark.Semicolon ∷ section_end ∷ end_token ∷ []))) }
    ensures first_fault { SourceGives (codes "EXEC SQL $1;\nint a = 08;")
        (refused F4 1) }
{}

/// The tokens of embedded statements.
pub fn sql_examples()
    ensures cast { sql_tokens_in "x::int;" ≡ sql_token sql.word "x" false
        ∷ sql_token sql.mark "::" false ∷ sql_token sql.word "int" false ∷ [] }
    ensures pointer { sql_tokens_in "a->b;" ≡ sql_token sql.word "a" false
        ∷ sql_token sql.mark "->" false ∷ sql_token sql.word "b" false ∷ [] }
    ensures parted_cast { sql_tokens_in "x: :int;" ≡ sql_token sql.word "x" false
        ∷ sql_token sql.mark ":" false ∷ sql_token sql.mark ":" true
        ∷ sql_token sql.word "int" false ∷ [] }
    ensures escaped { sql_tokens_in "E'\\';';" ≡ sql_token sql.word "E" false
        ∷ sql_token sql.quoted "'\\';'" false ∷ [] }
    ensures gap { sql_tokens_in "a /* c */ b;" ≡ sql_token sql.word "a" false
        ∷ sql_token sql.word "b" true ∷ [] }
    ensures number { sql_tokens_in "1E'x';" ≡ sql_token sql.number "1E" false
        ∷ sql_token sql.quoted "'x'" false ∷ [] }
    ensures bad_byte { sql_answer 3 (sql_units (codes "a\n= $1;"))
        ≡ Err (Refused F4 (record { 0 = 4 })) }
    ensures good_dollar { sql_answer 3 (sql_units (codes "a$1;"))
        ≡ Ok (record { class = sql.word; bytes = codes "a$1"; gap = false; line = 3 } ∷ []) }
{}

/// There are at most 2^22 tokens, the end not counted.
pub fn limit_examples()
    ensures token { (last line : ℕ) (tok : TokData) (parts : List Part)
        → numbered (2 ^ 22) last (record { line = line; tok = Ok tok } ∷ parts) ≡ Err (Limit L2) }
    ensures fault { (last line : ℕ) (kind : FaultKind) (parts : List Part)
        → numbered (2 ^ 22) last (record { line = line; tok = Err kind } ∷ parts)
        ≡ refused kind line }
    ensures end { (last : ℕ) → numbered (2 ^ 22) last [] ≡ Ok (token end_token last (2 ^ 22) ∷ []) }
{}
