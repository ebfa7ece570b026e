//! Logs, and what is to be printed of them.

use crate::logs::Field::{
    Byte, FirstRecord, Id, Newest, NextBlock, Original, PrevTx, Serial, Total, Wandered,
};
use crate::logs::{Change, Pair};

/// What is changed, and the line.
pub type Damage = (&'static [Change], &'static str);

/// Damages of 1,024 blocks with one transaction: the head in block 900, the record in block 901, and 254 pairs, from
/// original 300 and wandered block 600 on.
pub static OF_ONE_RECORD: [Damage; 53] = [
    (&[(19, Newest, 5000)], "image: block 19: range\n"),
    (&[(19, Newest, 1024)], "image: block 19: range\n"),
    (&[(19, Newest, 1023)], "image: block 1023: head magic\n"),
    (&[(19, Newest, 22)], "image: block 22: head magic\n"),
    (&[(19, Newest, 21)], "image: block 19: range\n"),
    (&[(19, Newest, u64::MAX)], "image: block 19: range\n"),
    (&[(900, Byte(0), 0)], "image: block 900: head magic\n"),
    (&[(900, Byte(7), 0)], "image: block 900: head magic\n"),
    (&[(900, Total, 0)], "image: block 900: total\n"),
    (&[(900, Total, 1)], "image: block 900: total\n"),
    (&[(900, Total, 3)], "image: block 900: record magic\n"),
    (&[(900, Total, 1024)], "image: block 900: record magic\n"),
    (&[(900, Total, 1025)], "image: block 900: total\n"),
    (&[(900, PrevTx, 5000)], "image: block 900: range\n"),
    (&[(900, PrevTx, 1024)], "image: block 900: range\n"),
    (&[(900, PrevTx, 21)], "image: block 900: range\n"),
    (&[(900, PrevTx, 901)], "image: block 901: head magic\n"),
    (&[(900, PrevTx, 900)], "image: block 900: long\n"),
    (&[(900, FirstRecord, 5000)], "image: block 900: range\n"),
    (&[(900, FirstRecord, 1024)], "image: block 900: range\n"),
    (&[(900, FirstRecord, 21)], "image: block 900: range\n"),
    (
        &[(900, FirstRecord, 902)],
        "image: block 902: record magic\n",
    ),
    (&[(900, Id, 899)], "image: block 901: id\n"),
    (&[(901, Byte(0), 0)], "image: block 901: record magic\n"),
    (&[(901, Byte(7), 0)], "image: block 901: record magic\n"),
    (&[(901, Id, 901)], "image: block 901: id\n"),
    (&[(901, Serial, 0)], "image: block 901: serial\n"),
    (&[(901, Serial, 2)], "image: block 901: serial\n"),
    (&[(901, NextBlock, 903)], "image: block 901: circle\n"),
    (&[(901, NextBlock, 901)], "image: block 901: circle\n"),
    (&[(901, NextBlock, 5000)], "image: block 901: circle\n"),
    (&[(901, Original(0), 70000)], "image: block 901: range\n"),
    (&[(901, Original(0), 16)], "image: block 901: range\n"),
    (&[(901, Original(0), 19)], "image: block 901: range\n"),
    (&[(901, Original(0), 20)], "image: block 901: range\n"),
    (&[(901, Original(0), 21)], "image: block 901: range\n"),
    (&[(901, Original(253), 1024)], "image: block 901: range\n"),
    (&[(901, Wandered(0), 0)], "image: block 901: range\n"),
    (&[(901, Wandered(0), 18)], "image: block 901: range\n"),
    (&[(901, Wandered(0), 21)], "image: block 901: range\n"),
    (&[(901, Wandered(253), 1024)], "image: block 901: range\n"),
    (&[(901, Original(0), 900)], "image: block 900: overlap\n"),
    (&[(901, Original(253), 901)], "image: block 901: overlap\n"),
    (&[(901, Wandered(9), 553)], "image: block 553: overlap\n"),
    (
        &[(901, Wandered(0), 400), (901, Wandered(253), 399)],
        "image: block 399: overlap\n",
    ),
    (
        &[(901, Original(253), 600), (901, Original(0), 853)],
        "image: block 600: overlap\n",
    ),
    // Of two faults the one that is found first.
    (
        &[(900, Byte(0), 0), (900, Total, 1)],
        "image: block 900: head magic\n",
    ),
    (
        &[(900, Total, 1), (900, PrevTx, 5000)],
        "image: block 900: total\n",
    ),
    (
        &[(900, PrevTx, 5000), (901, Byte(0), 0)],
        "image: block 900: range\n",
    ),
    (
        &[(901, Serial, 2), (901, Id, 901)],
        "image: block 901: id\n",
    ),
    (
        &[(901, Original(253), 16), (901, Serial, 2)],
        "image: block 901: serial\n",
    ),
    (
        &[(901, NextBlock, 903), (901, Wandered(253), 16)],
        "image: block 901: range\n",
    ),
    (
        &[(901, NextBlock, 903), (901, Wandered(0), 400)],
        "image: block 901: circle\n",
    ),
];

/// Damages of the same with one pair more, 554 and 854, in a second record, block 902.
pub static OF_TWO_RECORDS: [Damage; 13] = [
    (&[(900, Total, 2)], "image: block 901: circle\n"),
    (&[(900, Total, 4)], "image: block 900: record magic\n"),
    (&[(901, NextBlock, 5000)], "image: block 901: range\n"),
    (&[(901, NextBlock, 901)], "image: block 901: serial\n"),
    (&[(902, Byte(0), 0)], "image: block 902: record magic\n"),
    (&[(902, Id, 901)], "image: block 902: id\n"),
    (&[(902, Serial, 1)], "image: block 902: serial\n"),
    (&[(902, Original(0), 1024)], "image: block 902: range\n"),
    (&[(902, Wandered(0), 21)], "image: block 902: range\n"),
    (&[(902, NextBlock, 901)], "image: block 902: circle\n"),
    (&[(902, Original(0), 902)], "image: block 902: overlap\n"),
    (&[(902, Wandered(0), 300)], "image: block 300: overlap\n"),
    (
        &[(902, Byte(0), 0), (901, Original(253), 1024)],
        "image: block 901: range\n",
    ),
];

/// Damages of 64 blocks with two transactions: the older in blocks 30 and 31 puts 40 into 50, the newer in blocks 34 and
/// 35 puts 41 into 51.
pub static OF_TWO_TRANSACTIONS: [Damage; 17] = [
    (&[(30, Byte(0), 0)], "image: block 30: head magic\n"),
    (&[(30, Total, 1)], "image: block 30: total\n"),
    (&[(30, Total, 65)], "image: block 30: total\n"),
    (&[(30, PrevTx, 64)], "image: block 30: range\n"),
    (&[(30, PrevTx, 34)], "image: block 34: long\n"),
    (&[(34, PrevTx, 64)], "image: block 34: range\n"),
    (&[(30, FirstRecord, 64)], "image: block 30: range\n"),
    (&[(34, FirstRecord, 31)], "image: block 31: id\n"),
    (&[(31, NextBlock, 34)], "image: block 31: circle\n"),
    (&[(35, Byte(0), 0)], "image: block 35: record magic\n"),
    (&[(35, Original(0), 64)], "image: block 35: range\n"),
    (&[(31, Original(0), 34)], "image: block 34: overlap\n"),
    (&[(35, Original(0), 31)], "image: block 31: overlap\n"),
    (&[(35, Wandered(0), 50)], "image: block 50: overlap\n"),
    // The heads are read first, from the newest back, and then the records, from the oldest on.
    (
        &[(30, Byte(0), 0), (34, Total, 1)],
        "image: block 34: total\n",
    ),
    (
        &[(30, PrevTx, 64), (31, Byte(0), 0)],
        "image: block 30: range\n",
    ),
    (
        &[(31, Byte(0), 0), (35, Byte(0), 0)],
        "image: block 31: record magic\n",
    ),
];

/// The transactions of a short log, the oldest first: the pairs of each record.
pub type Transactions = &'static [&'static [&'static [Pair]]];

/// Ten transactions of one pair each.
pub static TEN: [&[&[Pair]]; 10] = [
    &[&[(55, 45)]],
    &[&[(55, 46)]],
    &[&[(55, 47)]],
    &[&[(55, 48)]],
    &[&[(55, 49)]],
    &[&[(55, 50)]],
    &[&[(55, 51)]],
    &[&[(55, 52)]],
    &[&[(56, 53)]],
    &[&[(57, 54)]],
];

/// Short logs that are replayed.
pub static REPLAYED: [(Transactions, &str); 4] = [
    // The copies of a transaction are made in order.
    (
        &[&[&[(55, 45), (56, 46), (55, 47)], &[(56, 48)]]],
        "replayed 1\n",
    ),
    // The two superblocks, and the last block.
    (&[&[&[(17, 45), (18, 46)]], &[&[(63, 62)]]], "replayed 2\n"),
    // A record without pairs, and as many pairs as blocks.
    (&[&[&[]]], "replayed 1\n"),
    (&[&[&[(55, 45); 40], &[(56, 46); 24]]], "replayed 1\n"),
];

/// Short logs that are refused.
pub static REFUSED: [(Transactions, &str); 4] = [
    (&[&[&[(55, 45); 65]]], "image: block 23: pairs\n"),
    (
        &[&[&[(55, 45); 40], &[(56, 46); 25]]],
        "image: block 24: pairs\n",
    ),
    // One transaction's copy stands where the other one's block is.
    (
        &[&[&[(55, 45)]], &[&[(56, 55)]]],
        "image: block 55: overlap\n",
    ),
    (
        &[&[&[(56, 55)]], &[&[(55, 45)]]],
        "image: block 55: overlap\n",
    ),
];

/// Changes of the first of the ten alone, in blocks 22 and 23, that are of no account: padding, a record's total, and
/// what stands behind the first pair without an original.
pub static UNREAD: [&[Change]; 5] = [
    &[(22, Byte(20), 1), (22, Byte(23), 1)],
    &[(22, Byte(64), 1), (22, Byte(4095), 1)],
    &[(23, Total, 1025)],
    &[(23, Wandered(1), 5000)],
    &[(23, Original(2), 5000), (23, Wandered(253), 5000)],
];

/// Two transactions.
pub static TWO: [&[&[Pair]]; 2] = [&[&[(55, 45), (56, 46)]], &[&[(55, 47)]]];

/// The calls of a replay of these two: `r` reads, `w` writes an original, `s` syncs and `f` writes the footer.
pub static CALLS: [u8; 18] = *b"rrrrrrrwrwsfsrwsfs";

/// Three transactions, which write to some blocks more than once.
pub static THREE: [&[&[Pair]]; 3] = [
    &[&[(55, 45), (56, 46)]],
    &[&[(17, 47), (55, 48)]],
    &[&[(55, 49)]],
];
