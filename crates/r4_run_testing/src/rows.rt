//! Rows of tests.

/// The scripts of a run on a volume, its status, what it prints, and what is listed of `/` behind it.
pub struct Row {
    pub name: &'static str,
    pub text: &'static str,
    pub status: u8,
    pub told: &'static str,
    pub listed: &'static str,
}
