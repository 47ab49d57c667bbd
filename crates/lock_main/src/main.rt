//! The program `glock`: the words of its command line, standard input and standard output, and the
//! status's number as its exit status. All that it does is done by `lock_top::run`; `progress` tells on
//! standard error how far a search is and how it ended, where the environment asks for that.
#![tactic(auto)]

mod numbers;
mod progress;

use crate::progress::ProgressGate;
use lock_io::{StdSink, StdSource, write_all_of};
use lock_top::{Status, run};
use run_answers::{NoWords, given_words, no_memory};
use std::process::ExitCode;

// One word that means nothing.
fn bad_word(rt: &HostRuntime) -> Result<Vec<String>, NoWords> {
    let mut words = Vec::new(rt.alloc());
    let word = String::from_str(rt.alloc(), "?").map_err(|_| NoWords::NoMemory)?;
    words.push(word).map_err(|_| NoWords::NoMemory)?;
    Ok(words)
}

// The answer where the words themselves have no memory.
fn answer_no_memory(rt: &HostRuntime) -> Status {
    let answer = no_memory();
    match write_all_of(&mut StdSink::new(rt.stdout()), answer.text.as_slice()) {
        Ok(()) => answer.status,
        Err(_) => Status::WriteFault,
    }
}

fn main(rt: HostRuntime) -> ExitCode {
    let words = match given_words(&rt) {
        Err(NoWords::Other) => bad_word(&rt),
        words => words,
    };
    let status = match words {
        Ok(words) => {
            let mut source = StdSource::new(rt.stdin());
            let mut sink = StdSink::new(rt.stdout());
            let gate = ProgressGate::new(&rt);
            let status = run(
                &rt,
                rt.alloc(),
                words.as_slice(),
                &mut source,
                &mut sink,
                &gate,
            );
            gate.end();
            status
        }
        Err(_) => answer_no_memory(&rt),
    };
    ExitCode::from(status.code())
}
