//! The command `replay` over images with a log.

ghost use Rattle.std.specs.Prelude.{◌<◌};
ghost use Rattle.r4_outside.specs.Device.{TellsCrashes};
ghost use Rattle.r4_outside.specs.Memory.{memory_state};

use crate::calls::{prints, replays};
use crate::logs::{Change, Field, Image, Pair, change};
use crate::same::{same, same_in};
use crate::tables::{
    CALLS, Damage, OF_ONE_RECORD, OF_TWO_RECORDS, OF_TWO_TRANSACTIONS, REFUSED, REPLAYED, TEN,
    THREE, TWO, UNREAD,
};
use r4_base::BlockNo;
use r4_outside::{Device, MemoryDevice, MemorySink};
use r4_replay::{Log, LogFault, ReplayFault, read_log};
use r4_testing::{LIST, REPLAY, call};
use std::alloc::Global;
use std::process::Abort;
use std::test::Fail;

// So many pairs, from original 300 and wandered block 600 on.
fn pairs_from_300(alloc: Global, count: u32) -> Result<Vec<Pair>, Fail> {
    let mut pairs = Vec::new(alloc);
    for i in 0..count {
        pairs.push((300 + i as u64, 600 + i as u64))?;
    }
    Ok(pairs)
}

// One transaction of 254 pairs, which fill its record.
fn full_record(alloc: Global) -> Result<Image, Fail> {
    let mut image = Image::new(alloc, 1024)?;
    image.commit(900, &[&pairs_from_300(alloc, 254)?])?;
    Ok(image)
}

// One transaction of 255 pairs, in two records.
fn second_record(alloc: Global) -> Result<Image, Fail> {
    let mut image = Image::new(alloc, 1024)?;
    image.commit(900, &[&pairs_from_300(alloc, 254)?, &[(554, 854)]])?;
    Ok(image)
}

// Two transactions of one pair each.
fn two_transactions(alloc: Global) -> Result<Image, Fail> {
    let mut image = Image::new(alloc, 64)?;
    image.commit(30, &[&[(50, 40)]])?;
    image.commit(34, &[&[(51, 41)]])?;
    Ok(image)
}

#[test]
fn a_record_is_filled(rt: HostRuntime) -> Result<(), Fail> {
    let alloc = rt.alloc();
    is_filled(&rt, alloc, &full_record(alloc)?, 254)?;
    is_filled(&rt, alloc, &second_record(alloc)?, 255)
}

fn is_filled<X: Abort>(rt: &X, alloc: Global, image: &Image, count: u32) -> Result<(), Fail> {
    let mut wanted = image.copy()?;
    wanted.place(&pairs_from_300(alloc, count)?)?;
    wanted.name_placed()?;
    ends_as(rt, alloc, image, "replayed 1\n", &wanted)
}

// Looks whether a device is refused with this line, by `replay` and by `list`. The clock tells that nothing was written.
fn is_refused<X: Abort>(
    rt: &X,
    alloc: Global,
    dev: &mut MemoryDevice,
    line: &str,
) -> Result<(), Fail> {
    let before = dev.clock();
    replays(rt, alloc, dev, 7, line)?;
    prints(rt, alloc, &LIST, dev, 7, line)?;
    same(rt, &dev.clock(), &before, line);
    Ok(())
}

// Looks whether each damage of the image is refused with its line. At the end each block is looked at.
fn refuses<X: Abort>(rt: &X, alloc: Global, image: &Image, damages: &[Damage]) -> Result<(), Fail> {
    let mut dev = image.device()?;
    refuse_each(rt, alloc, image, &mut dev, damages)?;
    is_left(rt, image, &mut dev, "at the end")
}

// Damages the image's device, and restores it, for each damage.
fn refuse_each<X: Abort>(
    rt: &X,
    alloc: Global,
    image: &Image,
    dev: &mut MemoryDevice,
    damages: &[Damage],
) -> Result<(), Fail> {
    for (changes, line) in damages {
        change(alloc, dev, changes)?;
        is_refused(rt, alloc, dev, line)?;
        image.restore(dev, changes)?;
    }
    Ok(())
}

// The same, where the image could be made.
fn made_refuses<X: Abort>(
    rt: &X,
    alloc: Global,
    image: Result<Image, Fail>,
    damages: &[Damage],
) -> Result<(), Fail> {
    refuses(rt, alloc, &image?, damages)
}

// Replays the image, which is to end as the other.
fn ends_as<X: Abort>(
    rt: &X,
    alloc: Global,
    image: &Image,
    line: &str,
    wanted: &Image,
) -> Result<(), Fail> {
    let mut dev = image.device()?;
    replays(rt, alloc, &mut dev, 0, line)?;
    is_left(rt, wanted, &mut dev, line)
}

// Looks whether a device holds the image.
fn is_left<X: Abort>(
    rt: &X,
    wanted: &Image,
    dev: &mut MemoryDevice,
    what: &str,
) -> Result<(), Fail> {
    same(rt, &wanted.first_difference(dev)?, &None, what);
    Ok(())
}

#[test]
fn a_damaged_log_is_refused(rt: HostRuntime) -> Result<(), Fail> {
    let alloc = rt.alloc();
    made_refuses(&rt, alloc, full_record(alloc), &OF_ONE_RECORD)?;
    made_refuses(&rt, alloc, second_record(alloc), &OF_TWO_RECORDS)?;
    made_refuses(&rt, alloc, two_transactions(alloc), &OF_TWO_TRANSACTIONS)
}

// A log on 64 blocks: the head of the first transaction in block 22, behind it its records, and so on.
fn short_log(alloc: Global, transactions: &[&[&[Pair]]]) -> Result<Image, Fail> {
    let mut image = Image::new(alloc, 64)?;
    let mut head = 22u32;
    for records in transactions {
        image.commit(head, records)?;
        head = head.saturating_add(1 + records.len().min(60) as u32);
    }
    Ok(image)
}

// What a short log is to end as.
fn placed(image: &Image, transactions: &[&[&[Pair]]]) -> Result<Image, Fail> {
    let mut wanted = image.copy()?;
    for records in transactions {
        for pairs in *records {
            wanted.place(pairs)?;
        }
    }
    wanted.name_placed()?;
    Ok(wanted)
}

#[test]
fn short_logs_are_replayed(rt: HostRuntime) -> Result<(), Fail> {
    let alloc = rt.alloc();
    short_ends(&rt, alloc, &TEN[..3], "replayed 3\n")?;
    short_ends(&rt, alloc, &TEN[..8], "replayed 8\n")?;
    for (transactions, line) in &REPLAYED {
        short_ends(&rt, alloc, transactions, line)?;
    }
    Ok(())
}

fn short_ends<X: Abort>(
    rt: &X,
    alloc: Global,
    transactions: &[&[&[Pair]]],
    line: &str,
) -> Result<(), Fail> {
    let image = short_log(alloc, transactions)?;
    let wanted = placed(&image, transactions)?;
    ends_as(rt, alloc, &image, line, &wanted)
}

#[test]
fn short_logs_are_refused(rt: HostRuntime) -> Result<(), Fail> {
    let alloc = rt.alloc();
    // The ninth head from the newest back is one too many.
    short_refused(&rt, alloc, &TEN[..9], "image: block 22: long\n")?;
    short_refused(&rt, alloc, &TEN, "image: block 24: long\n")?;
    for (transactions, line) in &REFUSED {
        short_refused(&rt, alloc, transactions, line)?;
    }
    Ok(())
}

fn short_refused<X: Abort>(
    rt: &X,
    alloc: Global,
    transactions: &[&[&[Pair]]],
    line: &'static str,
) -> Result<(), Fail> {
    let image = short_log(alloc, transactions)?;
    refuses(rt, alloc, &image, &[(&[], line)])
}

#[test]
fn unread_bytes_are_of_no_account(rt: HostRuntime) -> Result<(), Fail> {
    let alloc = rt.alloc();
    let image = short_log(alloc, &TEN[..1])?;
    let wanted = placed(&image, &TEN[..1])?;
    for changes in &UNREAD {
        goes_unread(&rt, alloc, &image, changes, &wanted)?;
    }
    Ok(())
}

fn goes_unread<X: Abort>(
    rt: &X,
    alloc: Global,
    image: &Image,
    changes: &[Change],
    wanted: &Image,
) -> Result<(), Fail> {
    let mut dev = image.device()?;
    change(alloc, &mut dev, changes)?;
    replays(rt, alloc, &mut dev, 0, "replayed 1\n")?;
    image.restore(&mut dev, changes)?;
    is_left(rt, wanted, &mut dev, "unread bytes")
}

#[test]
fn equal_numbers_are_an_empty_log(rt: HostRuntime) -> Result<(), Fail> {
    let alloc = rt.alloc();
    let image = Image::new(alloc, 64)?;
    for number in [0, 5, 22, 63, 5000, u64::MAX] {
        let mut dev = image.device()?;
        is_empty(&rt, alloc, &mut dev, number)?;
    }
    Ok(())
}

// Replays a device whose journal header and footer name this head.
fn is_empty<X: Abort>(
    rt: &X,
    alloc: Global,
    dev: &mut MemoryDevice,
    number: u64,
) -> Result<(), Fail> {
    let changes = [(19, Field::Newest, number), (20, Field::Newest, number)];
    change(alloc, dev, &changes)?;
    let before = dev.clock();
    replays(rt, alloc, dev, 0, "replayed 0\n")?;
    same(rt, &dev.clock(), &before, "clock");
    Ok(())
}

#[test]
fn a_replay_that_failed_is_repeated(rt: HostRuntime) -> Result<(), Fail> {
    let alloc = rt.alloc();
    let image = short_log(alloc, &TWO)?;
    let wanted = placed(&image, &TWO)?;
    repeat_each(&rt, alloc, &image, &wanted)?;
    ends_at_once(&rt, alloc, &image)
}

// Replays the log of two once with each call failing.
fn repeat_each<X: Abort>(rt: &X, alloc: Global, image: &Image, wanted: &Image) -> Result<(), Fail> {
    for made in 1..CALLS.len() + 1 {
        is_repeated(rt, alloc, image, &CALLS[..made], wanted)?;
    }
    Ok(())
}

// Replays the log of two with a call failing that is not made.
fn ends_at_once<X: Abort>(rt: &X, alloc: Global, image: &Image) -> Result<(), Fail> {
    let mut dev = image.fresh_device()?;
    dev.fail(alloc, CALLS.len() as u64 + 1)?;
    replays(rt, alloc, &mut dev, 0, "replayed 2\n")
}

// Replays the log of two with the last of these calls failing, and then again.
fn is_repeated<X: Abort>(
    rt: &X,
    alloc: Global,
    image: &Image,
    made: &[u8],
    wanted: &Image,
) -> Result<(), Fail> {
    let mut dev = image.fresh_device()?;
    dev.fail(alloc, made.len() as u64)?;
    fails_and_goes(rt, alloc, &mut dev, made, wanted)
}

// Replays a device of which the last of these calls fails, and then again.
fn fails_and_goes<X: Abort>(
    rt: &X,
    alloc: Global,
    dev: &mut MemoryDevice,
    made: &[u8],
    wanted: &Image,
) -> Result<(), Fail> {
    let line = failing_line(alloc, made)?;
    replays(rt, alloc, dev, 6, line.as_str())?;
    goes_again(rt, alloc, dev, made)?;
    is_left(rt, wanted, dev, line.as_str())
}

// The line of a replay of which the last of these calls fails.
fn failing_line(alloc: Global, made: &[u8]) -> Result<String, Fail> {
    let clock = made.iter().filter(|call| **call != b'r').count();
    Ok(format!(in alloc; "device: clock {clock} faults 1\n")?)
}

// Replays what is left of the log of two behind these calls.
fn goes_again<X: Abort>(
    rt: &X,
    alloc: Global,
    dev: &mut MemoryDevice,
    made: &[u8],
) -> Result<(), Fail> {
    let named = made.iter().filter(|call| **call == b'f').count();
    let again = format!(in alloc; "replayed {}\n", 2usize.saturating_sub(named))?;
    replays(rt, alloc, dev, 0, again.as_str())
}

#[test]
fn a_crash_is_replayed_again(rt: HostRuntime) -> Result<(), Fail> {
    let alloc = rt.alloc();
    let image = short_log(alloc, &THREE)?;
    let wanted = placed(&image, &THREE)?;
    let mut dev = image.fresh_device()?;
    crash_each(&rt, alloc, &mut dev, &wanted)
}

// Replays the log of three, and again behind a crash at each moment.
fn crash_each<X: Abort>(
    rt: &X,
    alloc: Global,
    dev: &mut MemoryDevice,
    wanted: &Image,
) -> Result<(), Fail>
    requires { TellsCrashes (memory_state dev.old) }
{
    replays(rt, alloc, dev, 0, "replayed 3\n")?;
    same(rt, &dev.clock(), &14, "clock");
    for moment in 0..15 {
        crash_at(rt, alloc, dev, wanted, moment)?;
    }
    Ok(())
}

// Replays what each of eight crashes at a moment leaves.
fn crash_at<X: Abort>(
    rt: &X,
    alloc: Global,
    dev: &MemoryDevice,
    wanted: &Image,
    moment: u64,
) -> Result<(), Fail>
    requires crashes { TellsCrashes (memory_state dev.now) }
    requires moment { moment < 15 }
{
    for pick in 0..8 {
        let mut left = dev.crash(alloc, moment, pick)?;
        let row = (8 * moment + pick) as usize;
        ends_whole(rt, alloc, &mut left, wanted, row)?;
    }
    Ok(())
}

// Replays what a crash left, whatever is printed.
fn ends_whole<X: Abort>(
    rt: &X,
    alloc: Global,
    left: &mut MemoryDevice,
    wanted: &Image,
    row: usize,
) -> Result<(), Fail> {
    let mut out = MemorySink::new(alloc, 100)?;
    let status = call(alloc, &REPLAY, left, &mut out)?;
    same_in(rt, &status, &0, row);
    same_in(rt, &wanted.first_difference(left)?, &None, row);
    Ok(())
}

// Blocks, and where they stand before the log of three is put in place.
static HOMES: [(u64, u64); 6] = [
    (17, 47),
    (55, 49),
    (56, 46),
    (45, 45),
    (57, 57),
    (5000, 5000),
];

#[test]
fn the_log_tells_where_blocks_stand(rt: HostRuntime) -> Result<(), Fail> {
    let alloc = rt.alloc();
    let mut dev = short_log(alloc, &THREE)?.device()?;
    let before = dev.clock();
    match read_log(alloc, &mut dev) {
        Ok(log) => tells_homes(&rt, &log),
        Err(_) => return Err(Fail::from("the log is refused")),
    }
    same(&rt, &dev.clock(), &before, "clock");
    Ok(())
}

// Looks at what the log of three tells.
fn tells_homes<X: Abort>(rt: &X, log: &Log) {
    same(rt, &log.count(), &3, "transactions");
    for (row, &(at, home)) in HOMES.iter().enumerate() {
        same_in(rt, &log.home(BlockNo(at)), &BlockNo(home), row);
    }
}

#[test]
fn a_long_log_is_not_read(rt: HostRuntime) -> Result<(), Fail> {
    let mut dev = short_log(rt.alloc(), &TEN)?.device()?;
    let refused = ReplayFault::Log {
        block: BlockNo(24),
        fault: LogFault::Long,
    };
    let fault = read_log(rt.alloc(), &mut dev).err();
    same(&rt, &fault, &Some(refused), "fault");
    Ok(())
}
