//! The words of the command line (docs/program.md, "Words").

ghost use Rattle.std.specs.Prelude.{◌≡◌, ◌≢◌, ◌≤◌, length, map, not, nat_eq, string_bytes};
ghost use Rattle.std.specs.Prelude.{All, IfSome, IsTrue, option_map};
ghost use Rattle.std.specs.List.{list_all};
ghost use Rattle.r4_mkfs.specs.Mkfs.{IsLabel};
ghost use Rattle.r4_words.specs.Words.{CanBeDone, CanBeDoneOffline, alone_of, as_label, as_path, asked_by, asked_of};
ghost use Rattle.r4_words.specs.Words.{asked_offline};
ghost use Rattle.r4_words.specs.Words.{is_image as is_image_name, is_label as is_label_word};
ghost use Rattle.r4_words.specs.Words.{is_option as is_option_word, is_path as is_path_word};
ghost use Rattle.r4_words.specs.Words.{label_in, label_of, path_of};

use crate::options::{RunWords, read_run};

/// What is to be done.
#[derive(Clone, Copy, Debug)]
pub enum Command<'a> {
    /// A command on an image that nobody else works on.
    Offline(Offline<'a>),
    /// `run`
    Run(RunWords),
}

/// What is to be done with an image that nobody else works on.
#[derive(Clone, Copy, Debug)]
pub enum Offline<'a> {
    /// `replay`
    Replay,
    /// `mkfs`, with a label of at most 16 bytes, which is empty where none was given.
    Mkfs { label: &'a [u8] },
    /// `list`, with a path that begins with a slash, and is that alone where none was given.
    List { path: &'a [u8] },
    /// `check`
    Check,
}

/// The command that the words spell, or none where they are faulty.
pub fn read_words(words: &[String]) -> Option<Command<'_>>
    ensures asked { option_map asked_by result ≡ asked_of (map string_bytes words.now) }
    ensures can { IfSome result CanBeDone }
{
    let [name, image, options @ ..] = words else {
        return None;
    };
    if !is_image(image.as_str()) {
        return None;
    }
    match name.as_str() {
        "replay" => read_none(options, Offline::Replay),
        "check" => read_none(options, Offline::Check),
        "mkfs" => read_label(options).map(|label| Command::Offline(Offline::Mkfs { label })),
        "list" => read_path(options).map(|path| Command::Offline(Offline::List { path })),
        "run" => read_run(options).map(|run| Command::Run(run)),
        _ => None,
    }
}

// The command, where no words are behind its IMAGE.
fn read_none<'a>(options: &[String], command: Offline<'a>) -> Option<Command<'a>>
    requires { CanBeDoneOffline command }
    ensures asked { option_map asked_by result
        ≡ alone_of (asked_offline command.entry) (map string_bytes options.now) }
    ensures can { IfSome result CanBeDone }
{
    match options {
        [] => Some(Command::Offline(command)),
        _ => None,
    }
}

// May the word stand for a file? An option may not.
fn is_image(word: &str) -> bool
    ensures { result ≡ is_image_name word.now }
{
    match word.as_bytes().first() {
        None => false,
        Some(&byte) => byte != b'-',
    }
}

// The path in the words behind an IMAGE; the slash alone where there are none.
fn read_path(options: &[String]) -> Option<&[u8]>
    ensures some { IfSome result (λ path. 1 ≤ length path.now) }
    ensures found { option_map (λ path. path.now) result ≡ path_of (map string_bytes options.now) }
{
    match options {
        [] => Some(b"/"),
        [word] => as_path(word.as_str()),
        _ => None,
    }
}

// The word as a path, where it may be one.
fn as_path(word: &str) -> Option<&[u8]>
    ensures some { IfSome result (λ path. 1 ≤ length path.now) }
    ensures found { option_map (λ path. path.now) result ≡ as_path word.now }
{
    let path = word.as_bytes();
    is_path(path).then_some(path)
}

// Does the word begin with a slash?
fn is_path(word: &[u8]) -> bool
    ensures test { result ≡ is_path_word word.now }
    ensures some { IsTrue result → 1 ≤ length word.now }
{
    match word.first() {
        None => false,
        Some(&byte) => byte == b'/',
    }
}

// The label in the words behind an IMAGE; an empty one where there are none.
fn read_label(options: &[String]) -> Option<&[u8]>
    ensures label { IfSome result (λ label. IsLabel label.now) }
    ensures found { option_map (λ label. label.now) result ≡ label_of (map string_bytes options.now) }
{
    match options {
        [] => Some(&[]),
        [word] => label_in(word.as_str()),
        [name, value] if name.as_str() == "--label" => as_label(value.as_str()),
        _ => None,
    }
}

// The label in a word that gives its name too.
fn label_in(word: &str) -> Option<&[u8]>
    ensures label { IfSome result (λ label. IsLabel label.now) }
    ensures found { option_map (λ label. label.now) result ≡ label_in word.now }
{
    match word.strip_prefix("--label=") {
        Some(value) => as_label(value),
        None => None,
    }
}

// The word as a label, where it may be one.
fn as_label(word: &str) -> Option<&[u8]>
    ensures label { IfSome result (λ label. IsLabel label.now) }
    ensures found { option_map (λ label. label.now) result ≡ as_label word.now }
{
    let label = word.as_bytes();
    is_label(label).then_some(label)
}

// Has the word 1 to 16 bytes, none of them zero, and is it no option?
fn is_label(word: &[u8]) -> bool
    ensures test { result ≡ is_label_word word.now }
    ensures label { IsTrue result → IsLabel word.now }
{
    !word.is_empty() && word.len() <= 16 && !is_option(word) && has_no_zero(word)
}

// Does the word begin with a dash?
fn is_option(word: &[u8]) -> bool
    ensures { result ≡ is_option_word word.now }
{
    match word.first() {
        None => false,
        Some(&byte) => byte == b'-',
    }
}

fn has_no_zero(word: &[u8]) -> bool
    ensures test { result ≡ list_all (λ byte. not (nat_eq byte 0)) word.now }
    ensures all { IsTrue result → All (λ byte. byte ≢ 0) word.now }
{
    word.iter().all(|&byte| byte != 0)
}
