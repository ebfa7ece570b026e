//! The lines that the program prints (docs/program.md, "Lines and statuses").
#![tactic(auto)]

mod lines;

pub use lines::{
    write_device, write_image, write_made, write_memory, write_number, write_replayed,
    write_script, write_size, write_source, write_usage,
};
