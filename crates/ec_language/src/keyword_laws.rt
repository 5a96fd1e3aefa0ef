//! The table of the words of C that are no names, computed.

ghost use Rattle.std.specs.Prelude.{◌≡◌, ◌∷◌, ◌++◌, ◌||◌, [], true, not, codes};
ghost use Rattle.std.specs.List.{list_all};
ghost use Rattle.ec_language.specs.CText.{is_word};
ghost use Rattle.ec_language.specs.Keywords.{type_words, varchar_words, other_keywords, declaring_words, reserved_words, are_different, is_name};
ghost use Rattle.ec_language.specs.Letters.{is_among};
ghost use Rattle.ec_language.specs.Tokens.{is_left_out_word};

/// The table has words, each once: all keywords of C (ISO/IEC 9899:1999, 6.4.1) but those that begin with `_`. None of them
/// is a name but those that the lexer leaves out before the grammar sees them.
pub fn keywords_are_a_table()
    ensures words { list_all is_word reserved_words ≡ true }
    ensures once { are_different reserved_words ≡ true }
    ensures no_names { list_all (λ w. not (is_name w) || is_left_out_word w) reserved_words ≡ true }
    ensures declaring { list_all (is_among (type_words ++ varchar_words ++ other_keywords))
        declaring_words ≡ true }
    ensures of_c { list_all (is_among reserved_words)
        (codes "auto" ∷ codes "break" ∷ codes "case" ∷ codes "char" ∷ codes "const"
        ∷ codes "continue" ∷ codes "default" ∷ codes "do" ∷ codes "double" ∷ codes "else"
        ∷ codes "enum" ∷ codes "extern" ∷ codes "float" ∷ codes "for" ∷ codes "goto" ∷ codes "if"
        ∷ codes "inline" ∷ codes "int" ∷ codes "long" ∷ codes "register" ∷ codes "restrict"
        ∷ codes "return" ∷ codes "short" ∷ codes "signed" ∷ codes "sizeof" ∷ codes "static"
        ∷ codes "struct" ∷ codes "switch" ∷ codes "typedef" ∷ codes "union" ∷ codes "unsigned"
        ∷ codes "void" ∷ codes "volatile" ∷ codes "while" ∷ []) ≡ true }
    ensures names { list_all is_name
        (codes "INT" ∷ codes "main" ∷ codes "_Bool" ∷ codes "Varchar" ∷ []) ≡ true }
    ensures left_out { is_left_out_word (codes "enum") ≡ true }
{}
