//! The words as `clap` reads them: one command line without subcommands, whose values are texts.
ghost use Rattle.std.specs.Prelude.{◌≡◌, [], ◌∷◌, codes, false, drop, map, IfOk, MatchOption, string_bytes};
ghost use Rattle.clap.specs.Words.{app_of, rule_of};
ghost use Rattle.ec_words.specs.Line.{app, option_rule, plain_rule};
ghost use Rattle.ec_words.specs.Words.{parts, anything, all_fair};
ghost use Rattle.ec_words.specs.Reading.{Holds, texts_found};

use clap::error::ErrorKind;
use clap::{Arg, ArgAction, ArgMatches, Command};
use ec_base::OutOfMemory;
use std::alloc::{AllocError, Global};

// An option with a value.
fn option<'a>(alloc: Global, name: &'a str) -> Arg<'a>
    ensures rule { rule_of result ≡ option_rule name.entry.now }
    ensures local { result.global ≡ false }
{
    Arg::new(alloc, name).long(name).action(ArgAction::Append)
}

// The words that are no options.
fn plain<'a>(alloc: Global) -> Arg<'a>
    ensures rule { rule_of result ≡ plain_rule }
    ensures local { result.global ≡ false }
{
    Arg::new(alloc, "plain").action(ArgAction::Append)
}

// The command line of every command. The command's word stands where `clap` has the program's name.
fn line<'a>(alloc: Global) -> Result<Command<'a>, AllocError>
    ensures app { IfOk result (λ it. app_of it ≡ app) }
{
    Command::new(alloc, "ecpgc")
        .disable_help_flag(true)
        .arg(option(alloc, "turns"))?
        .arg(option(alloc, "replay"))?
        .arg(plain(alloc))
}

/// What `clap` finds in the words behind the first, or none where it refuses them.
pub fn matches_of<'a>(
    alloc: Global,
    words: &'a [String],
) -> Result<Option<ArgMatches<'a>>, OutOfMemory>
    ensures { IfOk result (λ found. MatchOption found
        (all_fair (parts anything (drop 1 (map string_bytes words.now))) ≡ false)
        (λ it. Holds it (parts anything (drop 1 (map string_bytes words.now))))) }
{
    let line = line(alloc)?;
    match line.try_get_matches_from(words) {
        Ok(matches) => Ok(Some(matches)),
        Err(error) => match error.kind() {
            ErrorKind::OutOfMemory => Err(OutOfMemory),
            _ => Ok(None),
        },
    }
}

/// The texts of an argument, in the order of the words.
pub fn texts_found<'a>(
    alloc: Global,
    matches: &ArgMatches<'a>,
    id: &str,
) -> Result<Vec<&'a str>, OutOfMemory>
    ensures { IfOk result (λ texts.
        map (λ t. t.now) texts.items ≡ texts_found matches.now id.now) }
{
    match matches.get_raw(id) {
        Some(texts) => Ok(Vec::from_slice(alloc, texts)?),
        None => Ok(Vec::new(alloc)),
    }
}
