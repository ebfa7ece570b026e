//! One of the commands.

ghost use Rattle.r4_outside.specs.Device.{Goes, IsQuiet};
ghost use Rattle.r4_words.specs.Words.{CanBeDoneOffline, asked_offline};
ghost use Rattle.r4_offline.specs.Answers.{Answers, HasMoments};

use crate::checking::check_image;
use crate::listing::print_listing;
use crate::making::make_volume;
use crate::replaying::replay_image;
use crate::status::Status;
use r4_outside::{Device, Sink};
use r4_words::Offline;
use std::alloc::Global;

/// Does a command, and prints a listing, the lines of a check, or one line. A label is one that `mkfs` takes, and a path is not empty.
pub fn obey<D: Device, K: Sink>(
    alloc: Global,
    command: Offline<'_>,
    dev: &mut D,
    out: &mut K,
) -> Status
    requires { CanBeDoneOffline command }
    ensures goes { Goes (D.state dev.old) (D.state dev.new) }
    ensures answers { Answers (asked_offline command.entry) (D.state dev.old) (K.state out.old)
        result.code (D.state dev.new) (K.state out.new) }

    // What a crash at any moment of the call leaves.
    ensures any_moment { IsQuiet (D.state dev.old)
        → HasMoments (asked_offline command.entry) (D.state dev.old) (D.state dev.new) }
{
    match command {
        Offline::Replay => replay_image(alloc, dev, out),
        Offline::Mkfs { label } => make_volume(alloc, label, dev, out),
        Offline::List { path } => print_listing(alloc, path, dev, out),
        Offline::Check => check_image(alloc, dev, out),
    }
}
