// Answers each line of hex pairs, a Facility element, with what the element says, or with its fault.
#![tactic(auto)]

mod account;
mod decoder;

use decoder::decode;
use std::process::ExitCode;

fn main(rt: HostRuntime) -> ExitCode {
    match decode(rt.alloc(), &mut rt.stdin(), &mut rt.stdout()) {
        Ok(()) => ExitCode::SUCCESS,
        Err(e) => {
            let _ = eprintln!(rt; "decode: {e}");
            ExitCode::FAILURE
        }
    }
}
