//! Statements that are left out.

ghost use Rattle.std.specs.Prelude.{◌≡◌};
ghost use Rattle.ec_clex.specs.Sql.{sql_view, sql_views};
ghost use Rattle.ec_embedded.specs.LeftOut as spec;
ghost use Rattle.ec_read_statement.specs.left_out.Words as words;
ghost use Rattle.ec_embedded.specs.Terminals.{sort_of, is_word_among};

use crate::left_out::areas::names_area;
use ec_clex::{SqlClass, SqlToken};
use ec_references::{Class, is_any_word, is_class, is_keyword, is_mark};
use ec_split::scanning::words::same_word;

/// Whether the first token is this word.
pub fn is_first(tokens: &[SqlToken<'_>], word: &[u8]) -> bool
    ensures { result ≡ spec.is_first word.now (sql_views tokens.now) }
{
    match tokens {
        [first, ..] => is_keyword(first, word),
        [] => false,
    }
}

/// TYPE and VAR of Oracle's kind, DESCRIBE, and the precompiler's own conditions.
fn is_left_out_word(word: &[u8]) -> bool
    ensures { result ≡ is_word_among spec.left_out_words word.now }
{
    same_word(b"TYPE", word)
        || same_word(b"VAR", word)
        || same_word(b"DESCRIBE", word)
        || same_word(b"DEFINE", word)
        || same_word(b"UNDEF", word)
        || same_word(b"IFDEF", word)
        || same_word(b"IFNDEF", word)
        || same_word(b"ELSE", word)
        || same_word(b"ENDIF", word)
}

/// Whether the first token is such a word.
fn begins_left_out(tokens: &[SqlToken<'_>]) -> bool
    ensures { result ≡ spec.first_is_among spec.left_out_words (sql_views tokens.now) }
{
    match tokens {
        [first, ..] => is_any_word(first) && is_left_out_word(first.bytes),
        [] => false,
    }
}

/// Whether the token is a text in `"`.
#[tactic(auto, using(crate::proofs::left_out_lemmas::NameSorts::name_is, crate::proofs::left_out_lemmas::NameSorts::number_is))]
fn is_name(token: &SqlToken<'_>) -> bool
    ensures { result ≡ spec.is_name (sort_of (sql_view token.now)) }
{
    match token.class {
        SqlClass::Quoted => !is_class(token, Class::Quote),
        SqlClass::Number => false,
        SqlClass::Word => false,
        SqlClass::Mark => false,
    }
}

/// Whether the name of a file may begin with the token.
fn begins_name(token: &SqlToken<'_>) -> bool
    ensures { result ≡ spec.begins_name (sql_view token.now) }
{
    is_any_word(token)
        || is_class(token, Class::Quote)
        || is_name(token)
        || is_mark(token, b"<")
        || is_mark(token, b".")
        || is_mark(token, b"/")
}

/// Whether the tokens are `sqlca` alone.
fn is_sqlca(tokens: &[SqlToken<'_>]) -> bool
    ensures { result ≡ spec.is_sqlca (sql_views tokens.now) }
{
    match tokens {
        [_, _, ..] => false,
        [name] => is_keyword(name, b"sqlca"),
        [] => false,
    }
}

/// Whether a file is named that isn't sqlca.
fn names_file(tokens: &[SqlToken<'_>]) -> bool
    ensures { result ≡ spec.names_file (sql_views tokens.now) }
{
    match tokens {
        [first, ..] => begins_name(first) && !is_sqlca(tokens),
        [] => false,
    }
}

/// INCLUDE of a file.
fn includes_file(tokens: &[SqlToken<'_>]) -> bool
    ensures { result ≡ words.includes_file (sql_views tokens.now) }
{
    match tokens {
        [first, rest @ ..] => is_keyword(first, b"INCLUDE") && names_file(rest),
        [] => false,
    }
}

/// `PREPARE name AS`
fn prepares_as(tokens: &[SqlToken<'_>]) -> bool
    ensures { result ≡ words.prepares_as (sql_views tokens.now) }
{
    match tokens {
        [first, name, third, ..] => {
            is_keyword(first, b"PREPARE") && is_any_word(name) && is_keyword(third, b"AS")
        }
        [_, _] => false,
        [_] => false,
        [] => false,
    }
}

/// Whether the token is STATEMENT or BINARY.
fn is_other_kind(token: &SqlToken<'_>) -> bool
    ensures { result ≡ words.is_other_kind (sql_view token.now) }
{
    is_keyword(token, b"STATEMENT") || is_keyword(token, b"BINARY")
}

/// Whether the first token is STATEMENT or BINARY.
fn kind_follows(tokens: &[SqlToken<'_>]) -> bool
    ensures { result ≡ words.kind_follows (sql_views tokens.now) }
{
    match tokens {
        [kind, ..] => is_other_kind(kind),
        [] => false,
    }
}

/// Whether a name stands before one of these.
fn name_follows(tokens: &[SqlToken<'_>]) -> bool
    ensures { result ≡ words.name_follows (sql_views tokens.now) }
{
    match tokens {
        [name, rest @ ..] => is_any_word(name) && kind_follows(rest),
        [] => false,
    }
}

/// `DECLARE name STATEMENT` and `DECLARE name BINARY`
fn declares_other(tokens: &[SqlToken<'_>]) -> bool
    ensures { result ≡ words.declares_other (sql_views tokens.now) }
{
    match tokens {
        [first, rest @ ..] => is_keyword(first, b"DECLARE") && name_follows(rest),
        [] => false,
    }
}

/// `DEALLOCATE ALL`
fn deallocates_all(tokens: &[SqlToken<'_>]) -> bool
    ensures { result ≡ words.deallocates_all (sql_views tokens.now) }
{
    match tokens {
        [first, second, ..] => is_keyword(first, b"DEALLOCATE") && is_keyword(second, b"ALL"),
        [_] => false,
        [] => false,
    }
}

/// Whether the words of the statement tell that it is left out.
fn is_left_out_by_words(tokens: &[SqlToken<'_>]) -> bool
    ensures { result ≡ words.is_left_out_by_words (sql_views tokens.now) }
{
    begins_left_out(tokens)
        || includes_file(tokens)
        || prepares_as(tokens)
        || declares_other(tokens)
        || deallocates_all(tokens)
}

/// Whether a descriptor behind USING may be an SQLDA.
fn may_use(tokens: &[SqlToken<'_>]) -> bool
    ensures { result ≡ words.may_use (sql_views tokens.now) }
{
    is_first(tokens, b"OPEN") || is_first(tokens, b"EXECUTE")
}

/// Whether the statement is left out.
#[tactic(auto, using(crate::proofs::left_out_lemmas::Telling::left_out_is))]
pub fn is_left_out(tokens: &[SqlToken<'_>]) -> bool
    ensures { result ≡ spec.is_left_out (sql_views tokens.now) }
{
    is_left_out_by_words(tokens) || names_area(may_use(tokens), tokens)
}
