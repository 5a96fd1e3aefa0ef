ghost use Rattle.std.specs.Prelude.{◌≡◌};
ghost use Rattle.ec_transcript.specs.Text.{header};

/// A version of the format. The two differ in the first line, and in notices, of which the first version doesn't tell.
#[derive(Clone, Copy, Debug, PartialEq, Eq)]
pub enum Version {
    One,
    Two,
}

/// The first line of a transcript.
pub fn header(version: Version) -> &'static [u8]
    ensures { result.now ≡ header version }
{
    match version {
        Version::One => b"ecpg-transcript 1",
        Version::Two => b"ecpg-transcript 2",
    }
}
