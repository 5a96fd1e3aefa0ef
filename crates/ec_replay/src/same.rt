//! Whether two requests are the same.
ghost use Rattle.std.specs.Prelude.{◌≡◌};
ghost use Rattle.ec_replay.specs.Same.{is_same};

use ec_link::Request;

// Whether two requests are of one kind, and the same part by part.
pub(crate) fn is_same(one: &Request, other: &Request) -> bool
    ensures { result ≡ is_same one.now other.now }
{
    match (one, other) {
        (
            Request::Connect {
                target,
                user,
                password,
            },
            Request::Connect {
                target: other,
                user: name,
                password: word,
            },
        ) => target == other && user == name && password == word,
        (
            Request::Text { text, params },
            Request::Text {
                text: other,
                params: fields,
            },
        ) => text == other && params == fields,
        (
            Request::Prepare { name, text },
            Request::Prepare {
                name: other,
                text: words,
            },
        ) => name == other && text == words,
        (
            Request::Exec { name, params },
            Request::Exec {
                name: other,
                params: fields,
            },
        ) => name == other && params == fields,
        (Request::Deallocate { name }, Request::Deallocate { name: other }) => name == other,
        (Request::Close, Request::Close) => true,
        _ => false,
    }
}
