// Runs scripts of an exchange: its reports, requests and collections, a line each, with what each is answered.
#![tactic(auto)]

mod answer;
mod exchange;
mod run;
mod service;

use run::run_script;
use std::process::ExitCode;

fn main(rt: HostRuntime) -> ExitCode {
    match run_script(rt.alloc(), &mut rt.stdin(), &mut rt.stdout()) {
        Ok(()) => ExitCode::SUCCESS,
        Err(e) => {
            let _ = eprintln!(rt; "exchange: {e}");
            ExitCode::FAILURE
        }
    }
}
