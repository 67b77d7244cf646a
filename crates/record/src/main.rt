// Does a script of an exchange, and writes the reel of the calls in it.
#![tactic(auto)]

mod course;
mod recorder;
mod remark;
mod run;
mod service;
mod tape;

use run::record_script;
use std::process::ExitCode;

fn main(rt: HostRuntime) -> ExitCode {
    match record_script(
        rt.alloc(),
        &mut rt.stdin(),
        &mut rt.stderr(),
        &mut rt.stdout(),
    ) {
        Ok(true) => ExitCode::SUCCESS,
        Ok(false) => ExitCode::FAILURE,
        Err(e) => {
            let _ = eprintln!(rt; "record: {e}");
            ExitCode::FAILURE
        }
    }
}
