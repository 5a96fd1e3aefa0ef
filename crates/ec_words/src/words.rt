//! The command that the words behind the program's name ask for.
ghost use Rattle.std.specs.Prelude.{◌≡◌, ◌≤◌, ◌<◌, ◌^◌, Some, None, map, option_map, take, drop, length, if◌then◌else◌, codes, false, IfOk, IfSome, MatchOption, string_bytes};
ghost use Rattle.std.specs.List.{before_first};
ghost use Rattle.ec_words.specs.Words.{number_of, turns_by, places_by, run_by, gen_by, links_by, links_then, place_then, transcript_of, asked, is_equals, is_replay, names_replay, replay_at, is_word, all_fair, plain_in, words_before, parts_behind, run_of, gen_of, translate_of};
ghost use Rattle.ec_words.specs.Reading.{HasTexts};
ghost use Rattle.ec_words.specs.declared.words.Command.TheVariants as commands;

use crate::line::{matches_of, texts_found};
use crate::links::{LinkSpec, equals_in, is_word, push_links, transcript_of};
use ec_base::{List, OutOfMemory};
use std::alloc::Global;

/// The most turns that can be given.
const MOST_TURNS: u64 = 1_000_000_000;

/// The turns of a run where none are given.
pub const USUAL_TURNS: u64 = 1_000_000;

/// The greatest number of a generated program.
const MOST_PROGRAMS: u64 = 4_294_967_295;

/// What a run is asked for.
#[derive(Debug, Drop)]
pub struct RunWords {
    /// How many turns it has.
    pub turns: u64,
    /// Its links, in order.
    pub links: List<LinkSpec>,
}

/// What a generated program is asked for.
#[derive(Debug, Drop)]
pub struct GenWords {
    /// Its number, from 1 up.
    pub number: u32,
    /// Its links, in order.
    pub links: List<LinkSpec>,
}

/// A command.
#[derive(Debug, Drop)]
pub enum Command {
    /// `translate`: a source is translated.
    Translate,
    /// `exec`: written C is run.
    Exec(RunWords),
    /// `run`: a source is run.
    Run(RunWords),
    /// `record`: a source is run, and what was said is recorded.
    Record(RunWords),
    /// `gen`: a program is made, and run.
    Gen(GenWords),
}

// The number of one or more decimal digits, if it is not too large. Zeros may lead it.
fn number_of(most: u64, text: &[u8]) -> Option<u64>
    requires { most < 2 ^ 32 }
    ensures number { result ≡ number_of most text.now }
    ensures within { IfSome result (λ n. n ≤ most) }
{
    if text.is_empty() {
        return None;
    }
    let mut number = 0;
    for digit in text {
        if !digit.is_ascii_digit() {
            return None;
        }
        number = 10 * number + u64::from(*digit - b'0');
        if number > most {
            return None;
        }
    }
    Some(number)
}

// The turns of a run: the option stands at most once.
fn turns_by(texts: &[&str]) -> Option<u64>
    ensures { result ≡ turns_by (map (λ t. t.now) texts.now) }
{
    match texts {
        [] => Some(USUAL_TURNS),
        [only] => number_of(MOST_TURNS, only.as_bytes()),
        _ => None,
    }
}

// The links of words, with a transcript between them.
#[tactic(auto, using(crate::proofs::CodeLemmas::from_none, crate::proofs::CodeLemmas::one_between))]
fn places_round(
    alloc: Global,
    path: &str,
    front: &[&str],
    back: &[&str],
) -> Result<Option<List<LinkSpec>>, OutOfMemory>
    ensures { IfOk result (λ it. it ≡ links_then (links_by (map (λ t. t.now) front.now))
        (place_then (transcript_of path.now) (links_by (map (λ t. t.now) back.now)))) }
{
    let mut links = List::new(alloc);
    if !push_links(alloc, &mut links, front)? {
        return Ok(None);
    }
    let Some(transcript) = transcript_of(alloc, path.as_bytes())? else {
        return Ok(None);
    };
    links.push(transcript)?;
    if !push_links(alloc, &mut links, back)? {
        return Ok(None);
    }
    Ok(Some(links))
}

// The links of words.
#[tactic(auto, using(crate::proofs::CodeLemmas::from_none))]
fn links_by(alloc: Global, plain: &[&str]) -> Result<Option<List<LinkSpec>>, OutOfMemory>
    ensures { IfOk result (λ it. it ≡ links_by (map (λ t. t.now) plain.now)) }
{
    let mut links = List::new(alloc);
    if !push_links(alloc, &mut links, plain)? {
        return Ok(None);
    }
    Ok(Some(links))
}

// The links of words of which so many stand before the transcript, if there is one.
fn places_by(
    alloc: Global,
    replay: &[&str],
    plain: &[&str],
    before: usize,
) -> Result<Option<List<LinkSpec>>, OutOfMemory>
    requires { before ≤ length plain.now }
    ensures { IfOk result (λ it. it
        ≡ places_by (map (λ t. t.now) replay.now) (map (λ t. t.now) plain.now) before) }
{
    let Some(path) = replay.first() else {
        return links_by(alloc, plain);
    };
    if replay.len() > 1 {
        return Ok(None);
    }
    let places = places_round(alloc, path, &plain[..before], &plain[before..])?;
    Ok(places)
}

// What a run is asked for by the texts of its words.
#[tactic(auto, using(crate::proofs::CodeLemmas::no_places, crate::proofs::CodeLemmas::all_placed))]
fn run_by(
    alloc: Global,
    turns: &[&str],
    replay: &[&str],
    plain: &[&str],
    before: usize,
) -> Result<Option<RunWords>, OutOfMemory>
    requires { before ≤ length plain.now }
    ensures { IfOk result (λ it. it ≡ run_by (map (λ t. t.now) turns.now)
        (map (λ t. t.now) replay.now) (map (λ t. t.now) plain.now) before) }
{
    let Some(turns) = turns_by(turns) else {
        return Ok(None);
    };
    match places_by(alloc, replay, plain, before)? {
        Some(links) => Ok(Some(RunWords { turns, links })),
        None => Ok(None),
    }
}

// What a generated program is asked for by the texts of its words.
fn gen_by(
    alloc: Global,
    turns: &[&str],
    replay: &[&str],
    plain: &[&str],
) -> Result<Option<GenWords>, OutOfMemory>
    ensures { IfOk result (λ it. it ≡ gen_by (map (λ t. t.now) turns.now)
        (map (λ t. t.now) replay.now) (map (λ t. t.now) plain.now)) }
{
    let ([], [], [number, plain @ ..]) = (turns, replay, plain) else {
        return Ok(None);
    };
    let number = match number_of(MOST_PROGRAMS, number.as_bytes()) {
        None | Some(0) => return Ok(None),
        Some(number) => number as u32,
    };
    match links_by(alloc, plain)? {
        Some(links) => Ok(Some(GenWords { number, links })),
        None => Ok(None),
    }
}

// The name of an option.
fn name_of(text: &[u8]) -> &[u8]
    ensures { result.now ≡ before_first is_equals text.now }
{
    match equals_in(text) {
        Some(end) => &text[..end],
        None => text,
    }
}

// Whether a word is the option of a transcript, alone or with its value.
fn names_replay(word: &[u8]) -> bool
    ensures { result ≡ names_replay word.now }
{
    match word {
        [b'-', b'-', text @ ..] => is_word(b"replay", name_of(text)),
        _ => false,
    }
}

// How many words stand before that option.
fn replay_at(words: &[String]) -> usize
    ensures at { result ≡ replay_at (map string_bytes words.now) }
    ensures within { result ≤ length words.now }
{
    let mut at = 0;
    for word in words {
        if names_replay(word.as_bytes()) {
            return at;
        }
        at += 1;
    }
    at
}

// How many words that are no options stand before the transcript, or none where `clap` refuses the words before it. It
// tells no place of an option among the other words, so it is asked once more, for the words before this one.
fn before_replay(alloc: Global, words: &[String]) -> Result<Option<usize>, OutOfMemory>
    requires { 0 < length words.now }
    ensures { IfOk result (λ before. MatchOption before
        (all_fair (words_before (map string_bytes words.now)) ≡ false)
        (λ n. n ≡ length (plain_in (words_before (map string_bytes words.now))))) }
{
    let front = &words[..1 + replay_at(&words[1..])];
    match matches_of(alloc, front)? {
        Some(found) => {
            let texts = texts_found(alloc, &found, "plain")?;
            Ok(Some(texts.as_slice().len()))
        },
        None => Ok(None),
    }
}

// What `clap` finds in the words behind the command's, as the texts of its arguments.
#[derive(Debug, Drop)]
struct Texts<'a> {
    turns: Vec<&'a str>,
    replay: Vec<&'a str>,
    plain: Vec<&'a str>,
}

// The texts that `clap` finds, or none where it refuses the words.
fn texts_in<'a>(alloc: Global, words: &'a [String]) -> Result<Option<Texts<'a>>, OutOfMemory>
    ensures { IfOk result (λ found. MatchOption found
        (all_fair (parts_behind (map string_bytes words.now)) ≡ false)
        (λ it. HasTexts it (parts_behind (map string_bytes words.now)))) }
{
    let Some(found) = matches_of(alloc, words)? else {
        return Ok(None);
    };
    Ok(Some(Texts {
        turns: texts_found(alloc, &found, "turns")?,
        replay: texts_found(alloc, &found, "replay")?,
        plain: texts_found(alloc, &found, "plain")?,
    }))
}

// How many words that are no options stand before the transcript, if there is one.
fn place_of(alloc: Global, replay: &[&str], words: &[String]) -> Result<Option<usize>, OutOfMemory>
    requires { 0 < length words.now }
    ensures { IfOk result (λ place. MatchOption place
        ((all_fair (words_before (map string_bytes words.now)) ≡ false) × (0 < length replay.now))
        (λ n. (length replay.now ≡ 0 → n ≡ 0) × (0 < length replay.now →
        n ≡ length (plain_in (words_before (map string_bytes words.now)))))) }
{
    if replay.is_empty() {
        return Ok(Some(0));
    }
    let before = before_replay(alloc, words)?;
    Ok(before)
}

// What the words behind the command's ask of a run.
fn run_of(alloc: Global, words: &[String]) -> Result<Option<RunWords>, OutOfMemory>
    requires { 0 < length words.now }
    ensures { IfOk result (λ it. it ≡ run_of (parts_behind (map string_bytes words.now))) }
{
    let Some(texts) = texts_in(alloc, words)? else {
        return Ok(None);
    };
    let turns = texts.turns.as_slice();
    let replay = texts.replay.as_slice();
    let plain = texts.plain.as_slice();
    let Some(before) = place_of(alloc, replay, words)? else {
        return Ok(None);
    };
    if before > plain.len() {
        return Ok(None);
    }
    let run = run_by(alloc, turns, replay, plain, before)?;
    Ok(run)
}

// What the words behind the command's ask of a generated program.
fn gen_of(alloc: Global, words: &[String]) -> Result<Option<GenWords>, OutOfMemory>
    ensures { IfOk result (λ it. it ≡ gen_of (parts_behind (map string_bytes words.now))) }
{
    match texts_in(alloc, words)? {
        Some(texts) => gen_by(
            alloc,
            texts.turns.as_slice(),
            texts.replay.as_slice(),
            texts.plain.as_slice(),
        ),
        None => Ok(None),
    }
}

// Whether nothing stands behind the command's word but a `--`.
fn is_alone(alloc: Global, words: &[String]) -> Result<bool, OutOfMemory>
    ensures { IfOk result (λ it. (if it then Some commands.Translate else None)
        ≡ translate_of (parts_behind (map string_bytes words.now))) }
{
    let Some(texts) = texts_in(alloc, words)? else {
        return Ok(false);
    };
    let alone = texts.turns.is_empty() && texts.replay.is_empty() && texts.plain.is_empty();
    Ok(alone)
}

/// The command that the words name, as `clap` reads them, or none exactly where they name none.
pub fn read_words(alloc: Global, words: &[String]) -> Result<Option<Command>, OutOfMemory>
    ensures { IfOk result (λ it. it ≡ asked (map string_bytes words.now)) }
{
    let [first, ..] = words else {
        return Ok(None);
    };
    let first = first.as_bytes();
    if is_word(first, b"translate") {
        return Ok(is_alone(alloc, words)?.then_some(Command::Translate));
    }
    if is_word(first, b"exec") {
        return Ok(run_of(alloc, words)?.map(Command::Exec));
    }
    if is_word(first, b"run") {
        return Ok(run_of(alloc, words)?.map(Command::Run));
    }
    if is_word(first, b"record") {
        return Ok(run_of(alloc, words)?.map(Command::Record));
    }
    if is_word(first, b"gen") {
        return Ok(gen_of(alloc, words)?.map(Command::Gen));
    }
    Ok(None)
}
