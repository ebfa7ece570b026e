//! The words with which lines begin.

ghost use Rattle.std.specs.Prelude.{◌≡◌};
ghost use Rattle.r4_script.specs.Word.{verb_of, later_verb_of};

/// What a line asks for.
#[derive(Clone, Copy, Debug, PartialEq, Eq)]
pub enum Verb {
    Script,
    Begin,
    End,
    Commit,
    Create,
    Mkdir,
    Write,
    Fill,
    Truncate,
    Read,
    Stat,
    Names,
    Link,
    Unlink,
    Rmdir,
    Rename,
    Chmod,
    Chown,
    Times,
}

/// What the word asks for, or none where it is no word of a script.
pub fn read_verb(word: &[u8]) -> Option<Verb>
    ensures { result ≡ verb_of word.now }
{
    if word == b"script".as_slice() {
        return Some(Verb::Script);
    }
    if word == b"begin".as_slice() {
        return Some(Verb::Begin);
    }
    if word == b"end".as_slice() {
        return Some(Verb::End);
    }
    if word == b"commit".as_slice() {
        return Some(Verb::Commit);
    }
    if word == b"create".as_slice() {
        return Some(Verb::Create);
    }
    if word == b"mkdir".as_slice() {
        return Some(Verb::Mkdir);
    }
    if word == b"write".as_slice() {
        return Some(Verb::Write);
    }
    if word == b"fill".as_slice() {
        return Some(Verb::Fill);
    }
    if word == b"truncate".as_slice() {
        return Some(Verb::Truncate);
    }
    if word == b"read".as_slice() {
        return Some(Verb::Read);
    }
    read_later_verb(word)
}

// The second half of the words.
fn read_later_verb(word: &[u8]) -> Option<Verb>
    ensures { result ≡ later_verb_of word.now }
{
    if word == b"stat".as_slice() {
        return Some(Verb::Stat);
    }
    if word == b"names".as_slice() {
        return Some(Verb::Names);
    }
    if word == b"link".as_slice() {
        return Some(Verb::Link);
    }
    if word == b"unlink".as_slice() {
        return Some(Verb::Unlink);
    }
    if word == b"rmdir".as_slice() {
        return Some(Verb::Rmdir);
    }
    if word == b"rename".as_slice() {
        return Some(Verb::Rename);
    }
    if word == b"chmod".as_slice() {
        return Some(Verb::Chmod);
    }
    if word == b"chown".as_slice() {
        return Some(Verb::Chown);
    }
    if word == b"times".as_slice() {
        return Some(Verb::Times);
    }
    None
}
