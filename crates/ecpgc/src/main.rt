//! The program `ecpgc`: the tool over standard input, output and error, and over the links that its words name.
#![tactic(auto)]

use ec_base::{Line, List, Name, OutOfMemory, StdSink, StdSource};
use ec_cli::{Ending, ec_main, status};
use ec_link::{Link, Rack};
use ec_replay::{ReplayStop, Replayed, TranscriptLink, replay};
use ec_sqlitelink::SqliteLink;
use ec_words::{LinkSpec, links_named};
use std::env;
use std::fs::File;
use std::io::{BufWriter, ErrorKind, Stdout};
use std::process::ExitCode;

/// So many slots are more than the tool takes, so no link beyond them is made.
const ENOUGH_SLOTS: usize = 65;

// The words behind the program's name. Where one of them is no text there are none, so that they name no command.
fn words(rt: &HostRuntime) -> Result<Vec<String>, OutOfMemory> {
    let mut words = Vec::new(rt.alloc());
    match env::args(rt) {
        Ok(all) => {
            for word in all.skip(1) {
                words.push(word)?;
            }
            Ok(words)
        }
        Err(error) => match error.kind() {
            ErrorKind::OutOfMemory => Err(OutOfMemory),
            _ => Ok(words),
        },
    }
}

// A link of one of the kinds that there are.
#[derive(Drop)]
enum AnyLink {
    Database(SqliteLink),
    Transcript(TranscriptLink),
}

// A link with its name, and whether its connection is ready at the start.
#[derive(Drop)]
struct NamedLink {
    target: Name,
    ready: bool,
    link: AnyLink,
}

// The links of the transcript in a file. One that can't be opened is one that can't be read.
fn links_at(rt: &HostRuntime, path: &[u8]) -> Result<List<Replayed>, ReplayStop> {
    let Ok(path) = std::str::from_utf8(path) else {
        return Err(ReplayStop::ReadFault);
    };
    match File::open(rt, path) {
        Ok(file) => replay(rt.alloc(), &mut StdSource::new(file)),
        Err(_) => Err(ReplayStop::ReadFault),
    }
}

// Puts the links of the transcript in a file behind those that are there.
fn push_replayed(
    rt: &HostRuntime,
    links: &mut List<NamedLink>,
    path: &[u8],
) -> Result<(), ReplayStop> {
    for slot in links_at(rt, path)? {
        links.push(NamedLink {
            target: slot.target,
            ready: slot.ready,
            link: AnyLink::Transcript(slot.link),
        })?;
    }
    Ok(())
}

// Puts a link to a database behind those that are there.
fn push_database(
    links: &mut List<NamedLink>,
    ready: bool,
    target: &Name,
    link: SqliteLink,
) -> Result<(), OutOfMemory> {
    let target = target.clone()?;
    links.push(NamedLink {
        target,
        ready,
        link: AnyLink::Database(link),
    })
}

// Puts the link or the links that words name behind those that are there.
fn push_links(
    rt: &HostRuntime,
    links: &mut List<NamedLink>,
    spec: &LinkSpec,
) -> Result<(), ReplayStop> {
    match spec {
        LinkSpec::Memory { ready, target } => {
            let link = SqliteLink::memory(rt.alloc())?;
            push_database(links, *ready, target, link)?;
        }
        LinkSpec::File {
            ready,
            target,
            path,
        } => {
            let link = SqliteLink::file(rt, rt.alloc(), path.as_slice())?;
            push_database(links, *ready, target, link)?;
        }
        LinkSpec::Replay(path) => push_replayed(rt, links, path.as_slice())?,
    }
    Ok(())
}

// The links that words name, in order, and none behind those that are enough.
fn links_of(rt: &HostRuntime, words: &[String]) -> Result<List<NamedLink>, ReplayStop> {
    let mut links = List::new(rt.alloc());
    for spec in links_named(rt.alloc(), words)?.as_slice() {
        if links.len() >= ENOUGH_SLOTS {
            break;
        }
        push_links(rt, &mut links, spec)?;
    }
    Ok(links)
}

// Standard output behind a buffer, so that many small pieces are few writes. The tool flushes it.
fn output(rt: &HostRuntime) -> Result<StdSink<BufWriter<Stdout>>, OutOfMemory> {
    match BufWriter::new(rt.alloc(), rt.stdout()) {
        Ok(buffered) => Ok(StdSink::new(buffered)),
        Err(_) => Err(OutOfMemory),
    }
}

// Runs the tool over links. They are boxed here, since no function may hand out what a box hides.
fn run_over(
    rt: &HostRuntime,
    words: &[String],
    links: List<NamedLink>,
) -> Result<Ending, OutOfMemory> {
    let mut rack = Rack::new(rt.alloc());
    for named in links {
        if rack.slots().len() >= ENOUGH_SLOTS {
            break;
        }
        let NamedLink {
            target,
            ready,
            link,
        } = named;
        let link: Box<dyn Link> = match link {
            AnyLink::Database(link) => Box::new(rt.alloc(), link)?,
            AnyLink::Transcript(link) => Box::new(rt.alloc(), link)?,
        };
        // A second ready one is added as a free one.
        let added = if ready && !rack.has_ready() {
            rack.add_ready(target, link)
        } else {
            rack.add(target, link)
        };
        if added.is_err() {
            return Err(OutOfMemory);
        }
    }
    let mut input = StdSource::new(rt.stdin());
    let mut out = output(rt)?;
    let mut err = StdSink::new(rt.stderr());
    Ok(ec_main(rt.alloc(), words, &mut input, &mut out, &mut err, &mut rack))
}

// Runs the tool over the links that the words name.
fn run(rt: &HostRuntime) -> Result<Ending, ReplayStop> {
    let words = words(rt)?;
    let links = links_of(rt, words.as_slice())?;
    Ok(run_over(rt, words.as_slice(), links)?)
}

// Says why the tool was not run, and gives the status.
fn refuse(rt: &HostRuntime, stop: ReplayStop) -> u8 {
    match stop {
        ReplayStop::ReadFault => {
            let _ = eprintln!(rt; "ecpgc: transcript read fault");
            72
        }
        ReplayStop::Bad(Line(line)) => {
            let _ = eprintln!(rt; "ecpgc: bad transcript at line {line}");
            73
        }
        ReplayStop::TooLong => {
            let _ = eprintln!(rt; "ecpgc: transcript too long");
            74
        }
        ReplayStop::OutOfMemory => {
            let _ = eprintln!(rt; "ecpgc: out of memory");
            69
        }
    }
}

fn main(rt: HostRuntime) -> ExitCode {
    match run(&rt) {
        Ok(ending) => ExitCode::from(status(&ending)),
        Err(stop) => ExitCode::from(refuse(&rt, stop)),
    }
}
