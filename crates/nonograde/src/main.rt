//! The executable `nonograde`: runs the program on the words and streams of its process.
#![tactic(auto)]

use program::{refuse_words, run, words_of};
use std::process::ExitCode;
use survey_core::Counted;

fn main(rt: HostRuntime) -> ExitCode {
    let mut input = Counted::new(rt.stdin());
    let mut output = Counted::new(rt.stdout());
    let mut errors = Counted::new(rt.stderr());
    let status = match words_of(&rt) {
        Ok(words) => run(
            &rt,
            words,
            &mut input,
            &mut output,
            &mut errors,
            rt.stderr(),
        ),
        Err(fault) => refuse_words(&mut errors, &fault),
    };
    ExitCode::from(status)
}
