//! The options of `run` (docs/program.md, "Words").

ghost use Rattle.std.specs.Prelude.{◌≡◌, ◌<◌, ◌≤◌, None, Some, length, map, string_bytes};
ghost use Rattle.std.specs.Prelude.{IfSome, option_map};
ghost use Rattle.std.specs.Char.{is_ascii_digit};
ghost use Rattle.std.specs.List.{list_all};
ghost use Rattle.r4_words.specs.Options.{AreInRange, IsFirst, IsInRange, asked_run, asks_for};
ghost use Rattle.r4_words.specs.Options.{greatest as greatest_number, is_numeral as is_numeral_word};
ghost use Rattle.r4_words.specs.Options.{least as least_number, number_for as number_word};
ghost use Rattle.r4_words.specs.Options.{Takes, number_in as number_of_option, option_named, run_of};

/// What `run` is asked for.
#[derive(Clone, Copy, Debug)]
pub struct RunWords {
    /// The number of threads, from 1 to 16, and one where no number was given.
    pub threads: u32,
    /// Where its device is to stop, if it is.
    pub stop: Option<StopWords>,
    /// Of which seed the generated workload is run in place of scripts, if it is.
    pub seed: Option<u64>,
}

/// A stop of the device that is asked for.
#[derive(Clone, Copy, Debug)]
pub struct StopWords {
    /// How many writes pass before the one at which the device stops.
    pub writes: u64,
    /// Which sectors of that write are written: bit 0 is sector 0. None of them, where no number was given.
    pub tear: u8,
    /// The number by which sectors that were written and not synced go back. All stay, where it was not given.
    pub pick: Option<u64>,
}

/// An option of `run`.
#[derive(Clone, Copy)]
pub(crate) enum RunOption {
    Threads,
    Stop,
    Tear,
    Pick,
    Gen,
}

/// The numbers that are given with options.
#[derive(Clone, Copy)]
pub(crate) struct Numbers {
    pub(crate) threads: Option<u64>,
    pub(crate) stop: Option<u64>,
    pub(crate) tear: Option<u64>,
    pub(crate) pick: Option<u64>,
    pub(crate) seed: Option<u64>,
}

/// What the words behind the IMAGE of `run` ask for, or none where they are faulty.
pub(crate) fn read_run(options: &[String]) -> Option<RunWords>
    ensures range { IfSome result (λ run. (1 ≤ run.threads) × (run.threads ≤ 16)) }
    ensures found { option_map asked_run result ≡ run_of (map string_bytes options.now) }
{
    let mut numbers = Numbers {
        threads: None,
        stop: None,
        tear: None,
        pick: None,
        seed: None,
    };
    let mut rest = options;
    while !rest.is_empty() {
        let First {
            option,
            value,
            behind,
        } = first_option(rest)?;
        numbers = take(numbers, option, value)?;
        rest = behind;
    }
    run_asked(numbers)
}

// An option with its value, and the words behind it.
struct First<'a> {
    option: RunOption,
    value: &'a str,
    behind: &'a [String],
}

// The first option of some words.
fn first_option(words: &[String]) -> Option<First<'_>>
    requires { 0 < length words.now }
    ensures first { IsFirst (map string_bytes words.now) result }
    ensures shorter { IfSome result (λ first. length first.behind.now < length words.now) }
{
    let [word, rest @ ..] = words else {
        return None;
    };
    if let Some((name, value)) = word.split_once('=') {
        let option = option_by(name)?;
        return Some(First {
            option,
            value,
            behind: rest,
        });
    }
    let [value, behind @ ..] = rest else {
        return None;
    };
    let option = option_by(word.as_str())?;
    Some(First {
        option,
        value: value.as_str(),
        behind,
    })
}

// The option of this name.
fn option_by(name: &str) -> Option<RunOption>
    ensures { result ≡ option_named name.now }
{
    match name {
        "--threads" => Some(RunOption::Threads),
        "--stop" => Some(RunOption::Stop),
        "--tear" => Some(RunOption::Tear),
        "--pick" => Some(RunOption::Pick),
        "--gen" => Some(RunOption::Gen),
        _ => None,
    }
}

// One number more, that of an option that was not given before.
fn take(numbers: Numbers, option: RunOption, value: &str) -> Option<Numbers>
    ensures takes { Takes numbers (record { option = option; value = value.now }) result }
    ensures range { AreInRange numbers → IfSome result AreInRange }
{
    if number_in(numbers, option).is_some() {
        return None;
    }
    let number = Some(number_for(option, value)?);
    Some(match option {
        RunOption::Threads => Numbers {
            threads: number,
            ..numbers
        },
        RunOption::Stop => Numbers {
            stop: number,
            ..numbers
        },
        RunOption::Tear => Numbers {
            tear: number,
            ..numbers
        },
        RunOption::Pick => Numbers {
            pick: number,
            ..numbers
        },
        RunOption::Gen => Numbers {
            seed: number,
            ..numbers
        },
    })
}

// The number of an option, where it was given.
fn number_in(numbers: Numbers, option: RunOption) -> Option<u64>
    ensures { result ≡ number_of_option option numbers }
{
    match option {
        RunOption::Threads => numbers.threads,
        RunOption::Stop => numbers.stop,
        RunOption::Tear => numbers.tear,
        RunOption::Pick => numbers.pick,
        RunOption::Gen => numbers.seed,
    }
}

// The word as a number in the option's range.
fn number_for(option: RunOption, word: &str) -> Option<u64>
    ensures range { IfSome result (IsInRange option) }
    ensures found { result ≡ number_word option word.now }
{
    if !is_numeral(word.as_bytes()) {
        return None;
    }
    let Ok(number) = word.parse::<u64>() else {
        return None;
    };
    (least(option)..=greatest(option))
        .contains(&number)
        .then_some(number)
}

fn least(option: RunOption) -> u64
    ensures { result ≡ least_number option }
{
    match option {
        RunOption::Threads => 1,
        RunOption::Stop | RunOption::Tear | RunOption::Pick | RunOption::Gen => 0,
    }
}

fn greatest(option: RunOption) -> u64
    ensures { result ≡ greatest_number option }
{
    match option {
        RunOption::Threads => 16,
        RunOption::Tear => 255,
        RunOption::Stop | RunOption::Pick | RunOption::Gen => u64::MAX,
    }
}

// Has the word 1 to 20 bytes, all of them decimal digits?
fn is_numeral(word: &[u8]) -> bool
    ensures { result ≡ is_numeral_word word.now }
{
    !word.is_empty() && word.len() <= 20 && has_digits_alone(word)
}

fn has_digits_alone(word: &[u8]) -> bool
    ensures { result ≡ list_all is_ascii_digit word.now }
{
    word.iter().all(|byte| byte.is_ascii_digit())
}

// What the numbers ask for: `--tear` and `--pick` only with `--stop`.
fn run_asked(numbers: Numbers) -> Option<RunWords>
    requires { AreInRange numbers }
    ensures range { IfSome result (λ run. (1 ≤ run.threads) × (run.threads ≤ 16)) }
    ensures found { option_map asked_run result ≡ asks_for (Some numbers.threads) (Some numbers.stop)
        (Some numbers.tear) (Some numbers.pick) (Some numbers.seed) }
{
    let threads = numbers.threads.unwrap_or(1) as u32;
    match numbers.stop {
        Some(writes) => Some(RunWords {
            threads,
            stop: Some(StopWords {
                writes,
                tear: numbers.tear.unwrap_or(0) as u8,
                pick: numbers.pick,
            }),
            seed: numbers.seed,
        }),
        None if numbers.tear.is_none() && numbers.pick.is_none() => Some(RunWords {
            threads,
            stop: None,
            seed: numbers.seed,
        }),
        None => None,
    }
}
