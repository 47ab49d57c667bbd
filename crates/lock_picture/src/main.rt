//! The program of the picture: the words of its command line, standard input and standard output, and
//! the status's number as its exit status. What it writes is made by `picture_command::answer_to`.
#![tactic(auto)]

use lock_io::{StdSink, StdSource, write_all_of};
use picture_command::answer_to;
use run_answers::{Answer, NoWords, Status, given_words, no_memory};
use std::process::ExitCode;

// What is answered. Where the system gave no words, there are none.
fn answer(rt: &HostRuntime) -> Answer {
    let words = match given_words(rt) {
        Err(NoWords::Other) => Ok(Vec::new(rt.alloc())),
        words => words,
    };
    match words {
        Ok(words) => {
            let mut source = StdSource::new(rt.stdin());
            answer_to(rt.alloc(), words.as_slice(), &mut source)
        }
        Err(_) => no_memory(),
    }
}

fn main(rt: HostRuntime) -> ExitCode {
    let answer = answer(&rt);
    let mut sink = StdSink::new(rt.stdout());
    let status = match write_all_of(&mut sink, answer.text.as_slice()) {
        Ok(()) => answer.status,
        Err(_) => Status::WriteFault,
    };
    ExitCode::from(status.code())
}
