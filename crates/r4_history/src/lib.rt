//! What the tables of a run say of its trace: each entry that they allow is legal, and they go on
//! saying it (docs/histories.md).
#![tactic(auto)]

mod atoms;
mod commands;
mod examples;
mod ids;
mod refused;
mod runs;
mod serving;
mod tasks;
mod transactions;
mod waiting;
mod why;

pub use atoms::{atoms_are_committed, two_atoms_fuse};
pub use commands::{commands_are_done, commands_are_refused, commits_are_acknowledged};
pub use examples::{one_run, one_task, reading_fuses};
pub use ids::{drawn_ids_are_new, ids_are_drawn_once, ids_stay};
pub use r4_turns::Nodes;
pub use refused::{
    early_commits_are_not_acknowledged, failed_runs_answer_reopen, open_atoms_are_not_sealed,
};
pub use runs::{runs_are_whole, runs_begin, steps_tell_nothing, told_traces_are_legal};
pub use serving::{commands_fuse_atoms, one_script_is_served, others_are_exact};
pub use tasks::{tasks_are_apart, tasks_come_and_go, tasks_keep_their_owners, tasks_stay_out};
pub use transactions::{transactions_begin, transactions_end};
pub use waiting::{
    commits_have_answers, next_commands_suit, scripts_are_ordered, scripts_wait_for_one_reason,
    something_is_waited_for,
};
pub use why::Why;
