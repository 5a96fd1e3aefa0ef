//! The links that the words name.
ghost use Rattle.std.specs.Prelude.{◌≡◌, IfOk, map, string_bytes};
ghost use Rattle.ec_words.specs.Links.{links_of};
ghost use Rattle.ec_words.specs.Words.{asked};

use crate::links::LinkSpec;
use crate::words::{Command, read_words};
use ec_base::{List, OutOfMemory};
use std::alloc::Global;

/// The links that the words name, in order, or none where they name no command.
pub fn links_named(alloc: Global, words: &[String]) -> Result<List<LinkSpec>, OutOfMemory>
    ensures { IfOk result (λ it. it ≡ links_of (asked (map string_bytes words.now))) }
{
    match read_words(alloc, words)? {
        None | Some(Command::Translate) => Ok(List::new(alloc)),
        Some(Command::Exec(run) | Command::Run(run) | Command::Record(run)) => Ok(run.links),
        Some(Command::Gen(program)) => Ok(program.links),
    }
}
