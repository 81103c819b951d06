//! The replayer on standard input and output: a run's calls made again by proved code.
//!
//! A list of calls comes in, and the bytes that tell what they answered and left go out. `serve` of replaying is handed standard input and output, and its contract says what comes of them, whatever reader and writer they are (docs/TRUST.md, "On trust in the replayer"). docs/PLANT.md, "The calls of a run, made again".
#![tactic(auto)]

use std::process::ExitCode;

// Where `serve` fails, it says why in a line of standard error, and ends with status 1.
fn main(rt: HostRuntime) -> ExitCode {
    match replaying::serve(rt.alloc(), &mut rt.stdin(), &mut rt.stdout()) {
        Ok(()) => ExitCode::SUCCESS,
        Err(failure) => {
            let _ = eprintln!(rt; "replayer: {failure}");
            ExitCode::FAILURE
        }
    }
}
