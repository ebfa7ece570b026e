//! Words that are picked by chance, and a second reader of them.

use crate::commands::owned;
use crate::same::same;
use r4_words::{Command, Offline, RunWords, StopWords, read_words};
use std::alloc::Global;
use std::test::Fail;

// What the first word is, the second, and each word behind them.
static NAMES: [&str; 8] = ["run", "run", "run", "run", "mkfs", "list", "replay", "runs"];

static IMAGES: [&str; 5] = ["i", "i", "/", "-h", ""];

static OPTIONS: [&str; 24] = [
    "--threads",
    "--threads=",
    "--threads=7",
    "--threads=017",
    "--stop",
    "--stop",
    "--stop=3",
    "--stop=03",
    "--stop=0",
    "--tear",
    "--tear=16",
    "--pick",
    "--pick=17",
    "--gen",
    "--gen=5",
    "--gen=",
    "--label",
    "--label=",
    "--label=a",
    "0",
    "16",
    "17",
    "/a",
    "-h",
];

// Another number by chance, of a generator of numbers.
fn next(state: &mut u64) -> u64 {
    *state = state
        .wrapping_mul(6364136223846793005)
        .wrapping_add(1442695040888963407);
    *state >> 33
}

// What a reader finds.
#[derive(Clone, Copy, Debug, PartialEq, Eq)]
enum Found<'a> {
    Replay,
    Check,
    Label(&'a [u8]),
    Path(&'a [u8]),
    Run(usize, Option<Stop>, Option<usize>),
}

#[derive(Clone, Copy, Debug, PartialEq, Eq)]
struct Stop {
    writes: usize,
    tear: usize,
    pick: Option<usize>,
}

// What the crate's reader finds.
fn first(command: Command<'_>) -> Found<'_> {
    match command {
        Command::Offline(Offline::Replay) => Found::Replay,
        Command::Offline(Offline::Check) => Found::Check,
        Command::Offline(Offline::Mkfs { label }) => Found::Label(label),
        Command::Offline(Offline::List { path }) => Found::Path(path),
        Command::Run(
            RunWords {
                threads,
                stop,
                seed,
            },
        ) => {
            let seed = seed.map(|number| number as usize);
            Found::Run(threads as usize, stop.map(as_stop), seed)
        }
    }
}

fn as_stop(words: StopWords) -> Stop {
    Stop {
        writes: words.writes as usize,
        tear: words.tear as usize,
        pick: words.pick.map(|number| number as usize),
    }
}

// The value of an option that is given once, in one word or in two.
fn value<'a>(name: &str, options: &[&'a str]) -> Option<&'a str> {
    match options {
        [word] => {
            let (front, value) = word.split_once('=')?;
            (front == name).then_some(value)
        }
        [word, value] => (*word == name).then_some(*value),
        _ => None,
    }
}

// Small numbers, each at its own place.
static NUMERALS: [&str; 18] = [
    "", "1", "2", "3", "4", "5", "6", "7", "8", "9", "10", "11", "12", "13", "14", "15", "16", "17",
];

fn number(value: &str) -> Option<usize> {
    let digits = value.trim_start_matches('0');
    let number = NUMERALS.iter().position(|numeral| *numeral == digits)?;
    (!value.is_empty() && value.len() <= 20).then_some(number)
}

// The number of an option, wherever it stands, and how many words it takes.
#[derive(Clone, Copy)]
struct Place {
    number: Option<usize>,
    words: u8,
}

// Looks for an option in all words: in words that begin with its name.
fn find(name: &str, options: &[&str]) -> Option<Place> {
    let is_name = |word: &&str| word.split('=').next() == Some(name);
    match options.iter().filter(|word| is_name(word)).count() {
        0 => return Some(Place {
            number: None,
            words: 0,
        }),
        1 => {}
        _ => return None,
    }
    let at = options.iter().position(|word| is_name(word))?;
    let words = if options[at] == name { 2 } else { 1 };
    let number = number(value(name, options.get(at..at + usize::from(words))?)?)?;
    Some(Place {
        number: Some(number),
        words,
    })
}

fn run(options: &[&str]) -> Option<Found<'static>> {
    let (pick, tear) = (find("--pick", options)?, find("--tear", options)?);
    let (stop, threads) = (find("--stop", options)?, find("--threads", options)?);
    let seed = find("--gen", options)?;
    let own = usize::from(pick.words) + usize::from(tear.words) + usize::from(stop.words);
    if own + usize::from(threads.words) + usize::from(seed.words) != options.len() {
        return None;
    }
    let count = threads.number.unwrap_or(1);
    if !(1..=16).contains(&count) || stop.words == 0 && (pick.words > 0 || tear.words > 0) {
        return None;
    }
    let stop = stop.number.map(|writes| Stop {
        writes,
        tear: tear.number.unwrap_or(0),
        pick: pick.number,
    });
    Some(Found::Run(count, stop, seed.number))
}

fn label(value: &str) -> Option<Found<'_>> {
    let is_faulty = value.is_empty()
        || value.len() > 16
        || value.starts_with('-')
        || value.contains('\0');
    (!is_faulty).then_some(Found::Label(value.as_bytes()))
}

// What a second reader finds, which asks in another order.
fn second<'a>(words: &[&'a str]) -> Option<Found<'a>> {
    let (name, rest) = words.split_first()?;
    let (image, options) = rest.split_first()?;
    if image.is_empty() || image.starts_with('-') {
        return None;
    }
    match (*name, options) {
        ("replay", []) => Some(Found::Replay),
        ("check", []) => Some(Found::Check),
        ("mkfs", []) => Some(Found::Label(b"")),
        ("mkfs", _) => label(value("--label", options)?),
        ("list", []) => Some(Found::Path(b"/")),
        ("list", [path]) if path.starts_with('/') => Some(Found::Path(path.as_bytes())),
        ("run", _) => run(options),
        _ => None,
    }
}

// One of these words by chance.
fn pick<'a>(from: &[&'a str], state: &mut u64) -> &'a str {
    match from.get(next(state) as usize % from.len().max(1)) {
        Some(word) => word,
        None => "",
    }
}

// At most six words by chance.
fn pick_words(alloc: Global, state: &mut u64) -> Result<Vec<&'static str>, Fail> {
    let mut words = Vec::new(alloc);
    for place in 0..next(state) % 7 {
        let from = match place {
            0 => NAMES.as_slice(),
            1 => IMAGES.as_slice(),
            _ => OPTIONS.as_slice(),
        };
        words.push(pick(from, state))?;
    }
    Ok(words)
}

#[test]
fn two_readers_agree(rt: HostRuntime) -> Result<(), Fail> {
    let alloc = rt.alloc();
    let (mut state, mut commands, mut stops, mut seeds) = (1, 0u32, 0u32, 0u32);
    for _line in 0..2000u32 {
        let words = pick_words(alloc, &mut state)?;
        let owned = owned(alloc, &words)?;
        let found = read_words(&owned).map(first);
        let text = format!(in alloc; "{words:?}")?;
        same(&rt, &found, &second(&words), text.as_str());
        commands = commands.saturating_add(u32::from(found.is_some()));
        stops = stops.saturating_add(u32::from(matches!(found, Some(Found::Run(_, Some(_), _)))));
        seeds = seeds.saturating_add(u32::from(matches!(found, Some(Found::Run(_, _, Some(_))))));
    }
    same(
        &rt,
        &(commands, stops, seeds),
        &(149, 13, 4),
        "commands, and stops and seeds among them",
    );
    Ok(())
}
