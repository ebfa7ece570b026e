//! The generated workload: a job that makes many small files, and removes half of them (docs/scripts.md).
#![tactic(auto)]

mod files;
mod scripts;

pub use scripts::workload;
