//! How far a commit is.

/// What is behind a commit (docs/commit.md, "Steps"). `Copies`: placed cells, copies, records and the head are being
/// written. `Logged`: they are synced. `Headed`: the journal header is synced. `Homes`: the homes are being written, or
/// are synced. `Footed`: the journal footer is synced.
#[derive(Clone, Copy, Debug, PartialEq, Eq)]
pub enum Stage {
    Copies,
    Logged,
    Headed,
    Homes,
    Footed,
}
