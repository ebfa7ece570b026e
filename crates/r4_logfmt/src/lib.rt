//! The blocks of the log: read from their bytes, and written into them (docs/layout.md, "The log").
#![tactic(auto)]

mod head;
mod header;
mod record;
mod record_read;
mod record_write;

pub use head::{read_head, write_head};
pub use header::{read_footer, read_header, write_footer, write_header};
pub use r4_base::{Footer, Header, LogFault, TxHead};
pub use record::LogRecord;
pub use record_read::read_record;
pub use record_write::write_record;
