//! What a token is to the grammar.

ghost use Rattle.std.specs.Prelude.{◌≡◌, ◌∷◌, [], codes};
ghost use Rattle.ec_language.specs.Letters.{is_among};
ghost use Rattle.ec_grammar.specs.declared.kind.Kind.TheVariants as kind;
ghost use Rattle.ec_ctypes.specs.views.Tokens.{tok_view};
ghost use Rattle.ec_grammar.specs.Kinds as spec;

use ec_ctypes::Tok;
use ec_grammar::Kind;

/// Whether a word is one of those of integer types and `void`.
fn is_short_type_word(word: &[u8]) -> bool
    ensures { result
        ≡ is_among (codes "void" ∷ codes "bool" ∷ codes "char" ∷ codes "short" ∷ []) word.now }
{
    if b"void".as_slice() == word {
        return true;
    }
    if b"bool".as_slice() == word {
        return true;
    }
    if b"char".as_slice() == word {
        return true;
    }
    if b"short".as_slice() == word {
        return true;
    }
    false
}

fn is_long_type_word(word: &[u8]) -> bool
    ensures { result
        ≡ is_among (codes "int" ∷ codes "long" ∷ codes "signed" ∷ codes "unsigned" ∷ [])
        word.now }
{
    if b"int".as_slice() == word {
        return true;
    }
    if b"long".as_slice() == word {
        return true;
    }
    if b"signed".as_slice() == word {
        return true;
    }
    if b"unsigned".as_slice() == word {
        return true;
    }
    false
}

fn is_varchar_word(word: &[u8]) -> bool
    ensures { result ≡ is_among (codes "VARCHAR" ∷ codes "varchar" ∷ []) word.now }
{
    if b"VARCHAR".as_slice() == word {
        return true;
    }
    if b"varchar".as_slice() == word {
        return true;
    }
    false
}

fn jump_kind(word: &[u8]) -> Kind
    ensures { result ≡ spec.kind_among (
        spec.keyword (codes "break") kind.Break ∷
        spec.keyword (codes "continue") kind.Continue ∷
        spec.keyword (codes "return") kind.Return ∷
        spec.keyword (codes "goto") kind.Goto ∷
        spec.keyword (codes "sizeof") kind.Sizeof ∷ []) word.now }
{
    if word == b"break".as_slice() {
        return Kind::Break;
    }
    if word == b"continue".as_slice() {
        return Kind::Continue;
    }
    if word == b"return".as_slice() {
        return Kind::Return;
    }
    if word == b"goto".as_slice() {
        return Kind::Goto;
    }
    if word == b"sizeof".as_slice() {
        return Kind::Sizeof;
    }
    Kind::Name
}

fn loop_kind(word: &[u8]) -> Kind
    ensures { result ≡ spec.kind_among (
        spec.keyword (codes "else") kind.Else ∷
        spec.keyword (codes "while") kind.While ∷
        spec.keyword (codes "do") kind.Do ∷
        spec.keyword (codes "for") kind.For ∷
        spec.keyword (codes "break") kind.Break ∷
        spec.keyword (codes "continue") kind.Continue ∷
        spec.keyword (codes "return") kind.Return ∷
        spec.keyword (codes "goto") kind.Goto ∷
        spec.keyword (codes "sizeof") kind.Sizeof ∷ []) word.now }
{
    if word == b"else".as_slice() {
        return Kind::Else;
    }
    if word == b"while".as_slice() {
        return Kind::While;
    }
    if word == b"do".as_slice() {
        return Kind::Do;
    }
    if word == b"for".as_slice() {
        return Kind::For;
    }
    jump_kind(word)
}

fn keyword_kind(word: &[u8]) -> Kind
    ensures { result ≡ spec.kind_among spec.keywords word.now }
{
    if word == b"static".as_slice() {
        return Kind::Static;
    }
    if word == b"const".as_slice() {
        return Kind::Const;
    }
    if word == b"struct".as_slice() {
        return Kind::Struct;
    }
    if word == b"if".as_slice() {
        return Kind::If;
    }
    loop_kind(word)
}

/// The kind of a word: a keyword, a word that names a type, or a name (ISO/IEC 9899:1999, 6.4.1 and 6.4.2.1).
fn word_kind(word: &[u8]) -> Kind
    ensures { result ≡ spec.word_kind word.now }
{
    if is_short_type_word(word) || is_long_type_word(word) {
        return Kind::TypeWord;
    }
    if is_varchar_word(word) {
        return Kind::Varchar;
    }
    keyword_kind(word)
}

/// What a token is to the grammar.
pub fn kind_of(tok: &Tok) -> Kind
    ensures { result ≡ spec.kind_of (tok_view tok.now) }
{
    match tok {
        Tok::Word(word) => word_kind(word.as_slice()),
        Tok::Int(..) => Kind::Integer,
        Tok::Char(_) => Kind::Character,
        Tok::Str(_) => Kind::Text,
        Tok::Punct(mark) => Kind::Mark(*mark),
        Tok::Include(_) => Kind::Include,
        Tok::Emb(_, true) => Kind::Executable,
        Tok::Emb(_, false) => Kind::Directive,
        Tok::SectionStart => Kind::Opening,
        Tok::SectionEnd => Kind::Closing,
        Tok::End => Kind::End,
    }
}

/// Whether two kinds are one.
pub fn same_kind(a: Kind, b: Kind) -> bool
    ensures { result ≡ spec.same_kind a b }
{
    a == b
}
