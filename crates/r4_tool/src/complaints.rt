//! What is said on standard error where a command fails (docs/program.md, "Standard error").

ghost use Rattle.std.specs.Prelude.{◌≡◌, ◌++◌, ◌^◌, ◌<◌, ◌≤◌, IfOk, IfSome, IsSome, IsSomeAnd};
ghost use Rattle.std.specs.Prelude.{List, MatchOption, ℕ, codes, decimal, length, string_bytes};
ghost use Rattle.std.specs.Io.{StartsWith};
ghost use Rattle.std.specs.Str.Iter.{LacksByte};
ghost use Rattle.r4_tool.specs.Complaints.{BeginsAt, IsLast, IsLastBlock, IsWord, LacksFrom};
ghost use Rattle.r4_tool.specs.Complaints.{TellsImage, block_text, call_text, line_text};
ghost use Rattle.r4_tool.specs.Complaints.{memory_text, size_text};

use r4_base::Memory;
use r4_devices::{FileCall, Trouble};
use std::alloc::Global;
use std::str;

/// What the line of a refused image begins with.
const IMAGE: &[u8] = b"image: block ";

/// Which call of the image's file failed, and what the system says of it.
#[tactic(auto, using(crate::proofs::Starting::starts_with_front))]
pub fn of_device(alloc: Global, trouble: Option<Trouble>) -> Result<String, Memory>
    ensures { IfSome trouble
        (λ t. IfOk result (λ s. StartsWith (string_bytes s) (call_text t.call))) }
{
    let Some(Trouble { call, error }) = trouble else {
        return format!(in alloc; "it stopped, as it was asked to");
    };
    let said = format!(in alloc; "{error}")?;
    let mut text = words_of_call(alloc, call)?;
    text.push_str(before(said.as_str(), " (os error "))?;
    Ok(text)
}

// The call that failed, before what the system says of it.
fn words_of_call(alloc: Global, call: FileCall) -> Result<String, Memory>
    ensures { IfOk result (λ s. string_bytes s ≡ call_text call) }
{
    match call {
        FileCall::Open => Ok(String::new(alloc)),
        FileCall::Read(at) => format!(in alloc; "read of block {}: ", at.0),
        FileCall::Write(at) => format!(in alloc; "write of block {}: ", at.0),
        FileCall::Sync => format!(in alloc; "sync: "),
    }
}

/// Which block of the image is refused, and why, as the line that was printed last says it.
pub fn of_image(alloc: Global, printed: &[u8]) -> Result<String, Memory>
    ensures named { IfOk result (λ s. TellsImage printed.now (string_bytes s)) }
    ensures told { (block : ℕ) (word : List ℕ) → block < 2 ^ 64 → IsWord word
        → IsLast printed.now (line_text block word)
        → IfOk result (λ s. StartsWith (string_bytes s) (block_text block)) }
{
    match block_and_meaning(printed) {
        Some((block, text)) => of_block(alloc, block, text),
        None => format!(in alloc; "the image is refused"),
    }
}

// The block, and what is said of it.
fn of_block(alloc: Global, block: &str, text: &str) -> Result<String, Memory>
    ensures { IfOk result (λ s. StartsWith (string_bytes s)
        (codes "block " ++ (block.now ++ codes ": "))) }
{
    format!(in alloc; "block {block}: {text}")
}

// The block that the last line of an image names, and what its word means.
fn block_and_meaning(printed: &[u8]) -> Option<(&str, &'static str)>
    ensures named { IfSome result (λ t. IsLastBlock printed.now t.0.now) }
    ensures told { (block : ℕ) (word : List ℕ) → block < 2 ^ 64 → IsWord word
        → IsLast printed.now (line_text block word)
        → IsSomeAnd result (λ t. t.0.now ≡ decimal block) }
{
    let line = str::from_utf8(last_line(printed)?).ok()?;
    let (block, word) = block_and_word(line)?;
    Some((block, meaning(word)?))
}

// The block that a line names, and its word.
fn block_and_word(line: &str) -> Option<(&str, &str)>
    ensures named { IfSome result (λ t. (rest : List ℕ)
        × (line.now ≡ t.0.now ++ (codes ": " ++ rest))) }
    ensures told { (block word : List ℕ) → LacksByte 58 block → LacksByte 10 word
        → line.now ≡ block ++ (codes ": " ++ (word ++ codes "\n"))
        → IsSomeAnd result (λ t. (t.0.now ≡ block) × (t.1.now ≡ word)) }
{
    let (block, rest) = line.split_once(':')?;
    let (word, _) = rest.strip_prefix(' ')?.split_once('\n')?;
    Some((block, word))
}

/// That the image has too few blocks or too many.
pub fn of_size(alloc: Global, blocks: u64) -> Result<String, Memory>
    ensures { IfOk result (λ s. string_bytes s ≡ size_text blocks) }
{
    format!(in alloc; "it has {blocks} blocks of 4096 bytes, and a volume has from 64 to 1048576")
}

/// That no memory was found, for the command or for another of these texts.
pub fn of_memory() -> &'static str
    ensures { result.now ≡ memory_text }
{
    "there is not enough memory"
}

// What stands before a mark in a text, where it is there.
fn before<'a>(text: &'a str, mark: &str) -> &'a str {
    match text.split_once(mark) {
        Some((front, _)) => front,
        None => text,
    }
}

// What the last line of an image among these bytes says of it.
fn last_line(printed: &[u8]) -> Option<&[u8]>
    ensures { MatchOption result (LacksFrom printed.now 0) (λ line. IsLast printed.now line.now) }
{
    for at in (0..printed.len()).rev() {
        if let Some(line) = line_at(printed, at) {
            return Some(line);
        }
    }
    None
}

// What the line of an image says that begins at this byte, if one does.
fn line_at(printed: &[u8], at: usize) -> Option<&[u8]>
    requires { at ≤ length printed.now }
    ensures { MatchOption result ((line : List ℕ) → BeginsAt printed.now at line → ⊥)
        (λ line. BeginsAt printed.now at line.now) }
{
    printed[at..].strip_prefix(IMAGE)
}

// What a word means of the block that the line names.
fn meaning(word: &str) -> Option<&'static str>
    ensures { IsWord word.now → IsSome result }
{
    Some(match word {
        "range" => "it has a number of a block that the log may not use",
        "head magic" => "it is not the head of a transaction",
        "total" => "it counts fewer than 2 blocks of its transaction, or more than the image has",
        "long" => "the log has more than 8 transactions",
        "record magic" => "it is not a record of the log",
        "id" => "it is a record of another transaction",
        "serial" => "it is not the record whose turn it is",
        "pairs" => "its transaction has more pairs than the image has blocks",
        "circle" => "it is the last record of its transaction, and does not name the head",
        "overlap" => "the log would overwrite it, and needs it",
        "magic" => "it is not a superblock of this format",
        "block size" => "it says that blocks do not have 4096 bytes",
        "profile" => "it says that the volume is of another profile",
        "height" => "it says that the height of the tree is not from 2 to 8",
        "count" => "one of its numbers is out of range",
        "bitmap" => "it marks a block as free that is not, or not as many as block 17 says",
        "node" => "it is not a node",
        "level" => "it is a node of another level than that at which it is named",
        "stat" => "the attributes of an object in it are wrong",
        "dir" => "entries of a directory in it are wrong",
        "extent" => "it names blocks of a file that it may not",
        "tail" => "bytes of a file in it are wrong",
        "pointer" => "it names a block that is no block of the volume",
        "key range" => "it has a key outside of its range, or is named for two ranges",
        _ => return None,
    })
}
