/// What a text is that is run.
#[derive(Clone, Copy, Debug, PartialEq, Eq)]
pub enum Form {
    /// A source, by `run`.
    Source,
    /// Written C, by `exec`.
    Written,
    /// A source whose run is recorded, by `record`.
    Recorded,
    /// The source of the generated program of this number, by `gen`.
    Generated(u32),
}
