//! The lines that name links and requests.

use ec_base::{Bytes, List, Name, OutOfMemory};
use ec_link::Request;
use std::alloc::Global;

/// What a line says.
#[derive(Drop)]
pub enum Line<'a> {
    /// Make a link.
    Link { name: &'a str, place: &'a str },
    /// Ask one.
    Ask { name: &'a str, request: Request },
}

/// What a line says, if it has one of the forms.
pub fn read_line(alloc: Global, line: &str) -> Result<Option<Line<'_>>, OutOfMemory> {
    let Some((name, rest)) = line.split_once(" ") else {
        return Ok(None);
    };
    if let Some(place) = rest.strip_prefix("= ") {
        return Ok(Some(Line::Link { name, place }));
    }
    match request(alloc, rest)? {
        Some(request) => Ok(Some(Line::Ask { name, request })),
        None => Ok(None),
    }
}

// A word and what stands behind its blank.
fn split(text: &str) -> (&str, &str) {
    text.split_once(" ").unwrap_or((text, ""))
}

// The request that a line names.
fn request(alloc: Global, text: &str) -> Result<Option<Request>, OutOfMemory> {
    let (kind, rest) = split(text);
    let (said, given) = rest.split_once(" <- ").unwrap_or((rest, ""));
    Ok(Some(match kind {
        "connect" => Request::Connect {
            target: Bytes::new(alloc),
            user: None,
            password: None,
        },
        "text" => Request::Text {
            text: Bytes::from_slice(alloc, said.as_bytes())?,
            params: params(alloc, given)?,
        },
        "prepare" => prepare(alloc, said)?,
        "exec" => Request::Exec {
            name: Name::from_slice(alloc, said.as_bytes())?,
            params: params(alloc, given)?,
        },
        "deallocate" => Request::Deallocate {
            name: Name::from_slice(alloc, said.as_bytes())?,
        },
        "close" => Request::Close,
        _ => return Ok(None),
    }))
}

// The request to prepare a text.
fn prepare(alloc: Global, said: &str) -> Result<Request, OutOfMemory> {
    let (name, text) = split(said);
    Ok(Request::Prepare {
        name: Name::from_slice(alloc, name.as_bytes())?,
        text: Bytes::from_slice(alloc, text.as_bytes())?,
    })
}

// Parameters.
fn params(alloc: Global, text: &str) -> Result<List<Option<Bytes>>, OutOfMemory> {
    let mut params = List::new(alloc);
    if text.is_empty() {
        return Ok(params);
    }
    for param in text.split(" | ") {
        params.push(if param == "NULL" {
            None
        } else {
            Some(Bytes::from_slice(alloc, param.as_bytes())?)
        })?;
    }
    Ok(params)
}
