//! The requests that lines name.

use crate::words::Words;
use crate::wrong::Wrong;
use ec_link::Request;
use std::alloc::Global;

/// The request of a line.
pub fn request_of(alloc: Global, line: &str) -> Result<Request, Wrong> {
    let mut words = Words::new(line);
    match words.next()? {
        "connect" => connect(alloc, &mut words),
        "text" => Ok(Request::Text {
            text: words.text(alloc)?,
            params: words.fields(alloc)?,
        }),
        "prepare" => Ok(Request::Prepare {
            name: words.name(alloc)?,
            text: words.text(alloc)?,
        }),
        "exec" => Ok(Request::Exec {
            name: words.name(alloc)?,
            params: words.fields(alloc)?,
        }),
        "deallocate" => Ok(Request::Deallocate {
            name: words.name(alloc)?,
        }),
        "close" => Ok(Request::Close),
        _ => Err(Wrong::Form),
    }
}

// The request to open a connection.
fn connect(alloc: Global, words: &mut Words) -> Result<Request, Wrong> {
    Ok(Request::Connect {
        target: words.text(alloc)?,
        user: words.field(alloc)?,
        password: words.field(alloc)?,
    })
}
