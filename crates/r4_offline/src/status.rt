//! How a command ends.

/// How a call ended (docs/program.md, "Lines and statuses").
#[derive(Clone, Copy, Debug, PartialEq, Eq)]
pub struct Status {
    pub code: u8,
}
