// Replays a reel: the conferences to which it leads and what their parties have heard there, or why it is none.
#![tactic(auto)]

mod outcome;
mod replaying;

use replaying::replay;
use std::process::ExitCode;
use tables::Level;

fn main(rt: HostRuntime) -> ExitCode {
    let level = Level::round(true);
    match replay(
        rt.alloc(),
        level,
        &mut rt.stdin(),
        &mut rt.stdout(),
        &mut rt.stderr(),
    ) {
        Ok(true) => ExitCode::SUCCESS,
        Ok(false) => ExitCode::FAILURE,
        Err(e) => {
            let _ = eprintln!(rt; "replay: {e}");
            ExitCode::FAILURE
        }
    }
}
