//! Rows of requests to SQLite with its replies: the links that lines name are made, and asked what stands there, line by
//! line.
//!
//! `NAME = memory` and `NAME = file PATH` make a link, and `NAME = nowhere` one to a file whose path is not UTF-8. Else a
//! line is `NAME REQUEST`, with the request `connect`, `text TEXT`, `prepare NAME TEXT`, `exec NAME`, `deallocate NAME`
//! or `close`. Parameters follow behind ` <- `, parted by ` | `; one that is `NULL` is NULL.

mod replies;
mod requests;

use crate::sqlite::replies::put_reply;
use crate::sqlite::requests::{Line, read_line};
use ec_base::{Bytes, OutOfMemory};
use ec_link::Link;
use ec_sqlitelink::SqliteLink;

// A link with its name.
#[derive(Drop)]
struct Named<'a> {
    name: &'a str,
    link: SqliteLink,
}

// The link to a place.
fn link(rt: &HostRuntime, place: &str) -> Result<SqliteLink, OutOfMemory> {
    let alloc = rt.alloc();
    match place.strip_prefix("file ") {
        Some(path) => SqliteLink::file(rt, alloc, path.as_bytes()),
        None if place == "nowhere" => SqliteLink::file(rt, alloc, b"\xff"),
        None => SqliteLink::memory(alloc),
    }
}

// Does what a line says, and adds what is answered to `out`.
fn follow<'a>(
    rt: &HostRuntime,
    links: &mut Vec<Named<'a>>,
    line: &'a str,
    out: &mut Bytes,
) -> Result<(), OutOfMemory> {
    match read_line(rt.alloc(), line)? {
        Some(Line::Link { name, place }) => {
            links.push(Named {
                name,
                link: link(rt, place)?,
            })?;
        }
        Some(Line::Ask { name, request }) => {
            if let Some(at) = links.iter().position(|it| it.name == name) {
                let reply = links[at].link.ask(&request)?;
                put_reply(out, &reply)?;
            }
        }
        None => out.extend_from_slice(b"no request\n")?,
    }
    Ok(())
}

/// Shows each line, and behind it the reply.
pub fn show(rt: &HostRuntime, rows: &str, out: &mut Bytes) -> Result<(), OutOfMemory> {
    let mut links = Vec::new(rt.alloc());
    for line in rows.lines() {
        out.extend_from_slice(line.as_bytes())?;
        out.extend_from_slice(b"\n")?;
        if !line.is_empty() && !line.starts_with("#") {
            follow(rt, &mut links, line, out)?;
        }
    }
    Ok(())
}
