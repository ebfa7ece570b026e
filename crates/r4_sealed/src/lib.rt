//! What the commit of a sealed atom makes of images: from its cells and its plan to the content of the image with them
//! (docs/durable.md).
#![tactic(auto)]

mod contents;
mod lost;
mod wrong;

pub use contents::{
    blocks_are_kept, cells_stand_in_the_new_image, commits_come_to_rest,
    needed_blocks_are_spoken_for, new_image_has_content, settled_images_keep_volumes,
    trees_of_contents_are_written,
};
pub use lost::{lost_blocks_stay, space_settles};
pub use r4_commit::{CommitPlan, on_disk_law, plan};
pub use wrong::{freed_blocks_have_to_be_deferred, new_contents_are_as_planned};
