//! Tests of scripts that are served beside one another, through the program's call (docs/program.md,
//! "Running"): over two files whose bytes stand in leaves of their own, by one thread and by two.
#![tactic(auto)]

#[cfg(test)]
mod beside;
#[cfg(test)]
mod files;
#[cfg(test)]
mod held;
#[cfg(test)]
mod unread;
