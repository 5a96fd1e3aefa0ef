ghost use Rattle.std.specs.Prelude.{◌≡◌};

use crate::copies::{field_copy, fields_copy, list_copy};
use ec_base::{Bytes, List, Name};
use std::alloc::AllocError;

/// What a program asks of a server. A parameter is a text, or None for NULL.
#[derive(Debug, Drop)]
pub enum Request {
    /// Open a connection.
    Connect {
        target: Bytes,
        user: Option<Bytes>,
        password: Option<Bytes>,
    },
    /// Run a statement.
    Text {
        text: Bytes,
        params: List<Option<Bytes>>,
    },
    /// Prepare a statement under a name.
    Prepare {
        name: Name,
        text: Bytes,
    },
    /// Run a prepared statement.
    Exec {
        name: Name,
        params: List<Option<Bytes>>,
    },
    /// Forget a prepared statement.
    Deallocate {
        name: Name,
    },
    /// Close the connection.
    Close,
}

impl Request {
    ghost use Rattle.ec_link.specs.Logged.{target_of};

    // The name of the server that a Connect asks for, and no byte of another request.
    pub(crate) fn target(&self) -> &[u8]
        ensures { result.now ≡ target_of self.now }
    {
        match self {
            Request::Connect { target, .. } => target.as_slice(),
            _ => &[],
        }
    }
}

impl Clone for Request {
    ghost is_clone = { λ it copy. copy ≡ it };

    fn clone(&self) -> Result<Request, AllocError> {
        match self {
            Request::Connect {
                target,
                user,
                password,
            } => Ok(Request::Connect {
                target: list_copy(target)?,
                user: field_copy(user)?,
                password: field_copy(password)?,
            }),
            Request::Text { text, params } => Ok(Request::Text {
                text: list_copy(text)?,
                params: fields_copy(params)?,
            }),
            Request::Prepare { name, text } => Ok(Request::Prepare {
                name: name.clone()?,
                text: list_copy(text)?,
            }),
            Request::Exec { name, params } => Ok(Request::Exec {
                name: name.clone()?,
                params: fields_copy(params)?,
            }),
            Request::Deallocate { name } => Ok(Request::Deallocate {
                name: name.clone()?,
            }),
            Request::Close => Ok(Request::Close),
        }
    }
}
