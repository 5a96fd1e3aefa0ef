//! The words of a text for the server, one after the other.
ghost use Rattle.std.specs.Prelude.{◌≡◌, ◌≤◌, ◌==◌, ◌∷◌, length, not, position, option_map};
ghost use Rattle.ec_sqlitelink.specs.declared.marks.Place.TheVariants.{Free};
ghost use Rattle.ec_sqlitelink.specs.Marks.{is_word_byte};
ghost use Rattle.ec_sqlitelink.specs.Words.{is_comment, behind_gap, word_length, quoted_at, word_at, quote_passed, passed, words_of, is, takes, first, others, behind_word};
ghost use Rattle.ec_sqlitelink.specs.Reading.{word_of, left};

use crate::marks::{Place, behind, byte_at, is_word_byte};

// Whether a byte there is in a comment.
fn is_comment(place: Place) -> bool
    ensures { result ≡ is_comment place }
{
    !matches!(place, Place::Free | Place::Word | Place::Quoted(_))
}

// The text behind the blanks and comments at its front.
fn behind_blanks(text: &[u8]) -> &[u8]
    ensures { result.now ≡ behind_gap Free text.now }
{
    let mut rest = text;
    let mut place = Place::Free;
    while let [byte, more @ ..] = rest {
        let next = behind(place, *byte, byte_at(more, 0));
        if !(is_comment(place) || is_comment(next) || byte.is_ascii_whitespace()) {
            return rest;
        }
        place = next;
        rest = more;
    }
    rest
}

/// A word of a text.
#[derive(Clone, Copy, Debug)]
pub enum Word<'a> {
    /// As it stands, also where it begins with a quote that isn't closed.
    Plain(&'a [u8]),
    /// A name in quotes, without them.
    Quoted(&'a [u8]),
}

impl<'a> Word<'a> {
    /// Whether it is this word of SQL, in any case of letters. A name in quotes is none.
    #[tactic(auto, using(crate::proofs::WordLemmas::decides_same))]
    pub fn is(self, word: &[u8]) -> bool
        ensures { result ≡ is word.now (word_of self.entry) }
    {
        match self {
            Word::Plain(text) => text.eq_ignore_ascii_case(word),
            Word::Quoted(_) => false,
        }
    }

    /// Its text.
    pub fn text(self) -> &'a [u8] {
        match self {
            Word::Plain(text) | Word::Quoted(text) => text,
        }
    }
}

// The first quote of a text.
fn quote_in(text: &[u8]) -> Option<usize>
    ensures { result ≡ position (λ b. b == 34) text.now }
{
    text.iter().position(|byte| *byte == b'"')
}

// The first byte of a text that belongs to no word.
fn gap_in(text: &[u8]) -> Option<usize>
    ensures { result ≡ position (λ b. not (is_word_byte b)) text.now }
{
    text.iter().position(|byte| !is_word_byte(*byte))
}

// How many bytes of the text belong to a word that it goes on with.
fn word_length(text: &[u8]) -> usize
    ensures counted { result ≡ word_length text.now }
    ensures within { result ≤ length text.now }
{
    match gap_in(text) {
        Some(at) => at,
        None => text.len(),
    }
}

// The word at the front of a text that begins with a quote, and goes on with `more`.
fn quoted_at<'a>(text: &'a [u8], more: &'a [u8]) -> Word<'a>
    requires { text.now ≡ 34 ∷ more.now }
    ensures { word_of result ≡ quoted_at (position (λ b. b == 34) more.now) more.now }
{
    match quote_in(more) {
        Some(at) => Word::Quoted(&more[..at]),
        None => Word::Plain(text),
    }
}

// The word at the front of a text.
fn word_at(text: &[u8]) -> Word<'_>
    ensures { word_of result ≡ word_at text.now }
{
    match text {
        [] => Word::Plain(text),
        [b'"', more @ ..] => quoted_at(text, more),
        [byte, more @ ..] if is_word_byte(*byte) => Word::Plain(&text[..1 + word_length(more)]),
        [_, ..] => Word::Plain(&text[..1]),
    }
}

// How many bytes of a name are passed over, with the quote at its end.
fn quote_passed(more: &[u8]) -> usize
    ensures counted { result ≡ quote_passed (position (λ b. b == 34) more.now) more.now }
    ensures within { result ≤ length more.now }
{
    match quote_in(more) {
        Some(at) => at + 1,
        None => more.len(),
    }
}

// How many bytes belong to the word that begins with `byte`, which stands before `more`, behind that byte.
fn passed(byte: u8, more: &[u8]) -> usize
    ensures counted { result ≡ passed byte more.now }
    ensures within { result ≤ length more.now }
{
    if byte == b'"' {
        quote_passed(more)
    } else if is_word_byte(byte) {
        word_length(more)
    } else {
        0
    }
}

/// The words that are left of a text. Blanks and comments part them, and every byte of no word is one.
#[derive(Clone, Copy)]
pub struct Words<'a> {
    rest: &'a [u8],
}

impl<'a> Words<'a> {
    /// All words of the text.
    pub fn new(text: &'a [u8]) -> Words<'a>
        ensures { left result ≡ words_of text.now }
    {
        Words { rest: text }
    }

    /// The text from the next word on.
    pub fn rest(&self) -> &'a [u8] {
        behind_blanks(self.rest)
    }

    /// Takes the next word, if one is left.
    #[tactic(auto, using(crate::proofs::WordLemmas::first_some, crate::proofs::WordLemmas::others_some, crate::proofs::WordLemmas::first_none, crate::proofs::WordLemmas::others_none))]
    pub fn next(&mut self) -> Option<Word<'a>>
        ensures word { option_map word_of result ≡ first (left self.old) }
        ensures others { left self.new ≡ others (left self.old) }
    {
        let text = behind_blanks(self.rest);
        match text {
            [byte, more @ ..] => {
                self.rest = &more[passed(*byte, more)..];
                Some(word_at(text))
            }
            [] => {
                self.rest = text;
                None
            }
        }
    }

    /// Takes the next word if it is this one, in any case of letters.
    pub fn take(&mut self, word: &[u8]) -> bool
        ensures taken { result ≡ takes word.now (left self.old) }
        ensures others { left self.new ≡ behind_word word.now (left self.old) }
    {
        let mut words = *self;
        match words.next() {
            Some(next) if next.is(word) => {
                *self = words;
                true
            }
            _ => false,
        }
    }
}
