//! Edits: what a command does to a content (docs/commands.md, "Edits").

use crate::reply::Reply;
use r4_base::{Bytes, Key, Value};

/// The keys from `from` on and below `to`.
#[derive(Clone, Copy, Debug, PartialEq, Eq)]
pub struct Interval {
    pub from: Key,
    pub to: Key,
}

/// The keys from `from` on and below `to`, each with the byte `byte`.
#[derive(Clone, Copy, Debug, PartialEq, Eq)]
pub struct FilledInterval {
    pub from: Key,
    pub to: Key,
    pub byte: u8,
}

/// Bytes at one key after another: the first at `from`, and each next one at the next key, in the order of their ranks.
#[derive(Drop)]
pub struct ByteRun {
    pub from: Key,
    pub bytes: Bytes,
}

/// What a command changes, and its reply. First the keys of `cuts` are taken away, then each key of `zeros` gets the byte
/// 0, then the bytes of `fills` are set, then those of `runs`, then the values of `puts`, each list in its order. So the
/// bytes of a command take no memory one by one (docs/commands.md, "Edits").
#[derive(Drop)]
pub struct Edits {
    pub cuts: Vec<Interval>,
    pub zeros: Vec<Interval>,
    pub fills: Vec<FilledInterval>,
    pub runs: Vec<ByteRun>,
    pub puts: Vec<(Key, Value)>,
    pub reply: Reply,
}
