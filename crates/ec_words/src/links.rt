//! The links that words name.
ghost use Rattle.std.specs.Prelude.{◌≡◌, ◌++◌, option_map, position, map, Some, None, if◌then◌else◌, IfOk};
ghost use Rattle.ec_words.specs.Words.{text_behind, is_word, is_equals, file_of, named_link, unmarked_link, link_of, transcript_of, links_by, links_then};
ghost use Rattle.ec_words.specs.Reading.{spec_of};

use ec_base::{Bytes, List, Name, OutOfMemory};
use std::alloc::Global;

/// A link, or the links of a transcript, as words name them.
#[derive(Debug, Drop)]
pub enum LinkSpec {
    /// A database in memory, under this name, and whether its connection is ready at the start.
    Memory {
        ready: bool,
        target: Name,
    },
    /// The database in the file at a path, as before.
    File {
        ready: bool,
        target: Name,
        path: Bytes,
    },
    /// The links of the transcript at a path.
    Replay(Bytes),
}

/// A link that a word names, in that word.
#[derive(Clone, Copy, Debug)]
pub struct LinkWord<'a> {
    /// Whether the connection is ready at the start.
    pub is_ready: bool,
    /// The name of the server.
    pub target: &'a [u8],
    /// The path of its file, or none where it is in memory.
    pub path: Option<&'a [u8]>,
}

// What stands behind that front of a text, if it has it.
fn text_behind<'a>(front: &[u8], text: &'a [u8]) -> Option<&'a [u8]>
    ensures { option_map (λ rest. rest.now) result ≡ text_behind front.now text.now }
{
    let mut wanted = front;
    let mut rest = text;
    while let [byte, later @ ..] = wanted {
        match rest {
            [] => return None,
            [first, ..] if *byte != *first => return None,
            [_, more @ ..] => rest = more,
        }
        wanted = later;
    }
    Some(rest)
}

/// Whether a word is that one.
pub fn is_word(word: &[u8], it: &[u8]) -> bool
    ensures { result ≡ is_word word.now it.now }
{
    word == it
}

// The file behind the name and the `=` of a link.
fn file_of<'a>(is_ready: bool, target: &'a [u8], path: Option<&'a [u8]>) -> Option<LinkWord<'a>>
    ensures { option_map spec_of result
        ≡ file_of is_ready target.now (option_map (λ it. it.now) path.entry) }
{
    match path {
        None | Some([]) => None,
        Some(path) => Some(LinkWord {
            is_ready,
            target,
            path: Some(path),
        }),
    }
}

// The link of a name and of what stands behind it.
fn named_link<'a>(is_ready: bool, target: &'a [u8], place: &'a [u8]) -> Option<LinkWord<'a>>
    ensures { option_map spec_of result ≡ named_link is_ready target.now place.now }
{
    if target.is_empty() {
        return None;
    }
    if is_word(place, b"memory") {
        return Some(LinkWord {
            is_ready,
            target,
            path: None,
        });
    }
    file_of(is_ready, target, text_behind(b"file:", place))
}

/// The first `=` of a word.
pub fn equals_in(word: &[u8]) -> Option<usize>
    ensures { result ≡ position is_equals word.now }
{
    word.iter().position(|byte| *byte == b'=')
}

// The link of a word without its mark.
fn unmarked_link(is_ready: bool, word: &[u8]) -> Option<LinkWord<'_>>
    ensures { option_map spec_of result ≡ unmarked_link is_ready word.now }
{
    let end = equals_in(word)?;
    named_link(is_ready, &word[..end], &word[end + 1..])
}

// The link that a word names.
fn link_of(word: &[u8]) -> Option<LinkWord<'_>>
    ensures { option_map spec_of result ≡ link_of word.now }
{
    match word {
        [] | [b'-', ..] => None,
        [b'+', word @ ..] => unmarked_link(true, word),
        _ => unmarked_link(false, word),
    }
}

// A link of its own, with its texts.
fn owned(alloc: Global, word: LinkWord<'_>) -> Result<LinkSpec, OutOfMemory>
    ensures { IfOk result (λ it. it ≡ spec_of word.entry) }
{
    let ready = word.is_ready;
    let target = Name::from_slice(alloc, word.target)?;
    match word.path {
        Some(path) => Ok(LinkSpec::File {
            ready,
            target,
            path: Bytes::from_slice(alloc, path)?,
        }),
        None => Ok(LinkSpec::Memory { ready, target }),
    }
}

/// The transcript at a path of one or more bytes that doesn't begin with `-`.
pub fn transcript_of(alloc: Global, path: &[u8]) -> Result<Option<LinkSpec>, OutOfMemory>
    ensures { IfOk result (λ it. it ≡ transcript_of path.now) }
{
    match path {
        [] | [b'-', ..] => Ok(None),
        _ => Ok(Some(LinkSpec::Replay(Bytes::from_slice(alloc, path)?))),
    }
}

/// Puts the links that words name behind those that are there. It tells whether each word names one.
pub fn push_links(
    alloc: Global,
    links: &mut List<LinkSpec>,
    words: &[&str],
) -> Result<bool, OutOfMemory>
    ensures { IfOk result (λ right.
        links_then (Some links.old) (links_by (map (λ t. t.now) words.now))
        ≡ (if right then Some links.new else None)) }
{
    for word in words {
        let Some(link) = link_of(word.as_bytes()) else {
            return Ok(false);
        };
        links.push(owned(alloc, link)?)?;
    }
    Ok(true)
}
