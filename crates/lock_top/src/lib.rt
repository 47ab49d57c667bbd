//! The top call: from words and a source of bytes to a sink and a status.
//!
//! `run` does what the words ask and writes one text. Its contract is one record of a run, with a clause
//! for each command and status: with status 0 of `solve` the source was read to its end, its bytes mean
//! an instance, and the sink got the report of a plan of it that is cheapest over all legal plans, or
//! with `--dossier` the dossier of such a plan. `written_dossiers_are_accepted` is the law that `check`
//! accepts what `solve --dossier` wrote.
//!
//! Definitions: `specs/Clauses` is what to read first: what a run did, by command and status. `Runs` (a
//! run: its words, source, sink and status), `Asked` (what the words ask for), `Answers` (what a run
//! answers), `Complete` (what is asked rightly is done), `Laws` (what a later run on `check` answers).
//! What each command answers stands with the commands, in `solve_commands`, `dossier_commands`,
//! `plan_commands` and `replan_command`, a file of `specs/` for each.
#![tactic(auto)]

mod commands;
mod laws;
mod top;

pub use laws::written_dossiers_are_accepted;
pub use run_answers::Status;
pub use top::run;
