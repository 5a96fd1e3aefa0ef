ghost use Rattle.std.specs.Prelude.{◌≡◌};

use crate::reply::Reply;
use crate::request::Request;
use std::alloc::AllocError;

/// An exchange: a request and its reply, with the slot of the connection that it was made over.
#[derive(Debug, Drop)]
pub struct Logged {
    pub slot: Option<u32>,
    pub request: Request,
    pub reply: Reply,
}

impl Clone for Logged {
    ghost is_clone = { λ it copy. copy ≡ it };

    fn clone(&self) -> Result<Logged, AllocError> {
        Ok(Logged {
            slot: self.slot,
            request: self.request.clone()?,
            reply: self.reply.clone()?,
        })
    }
}
