// Makes the reel that docs/REEL.md reads by hand, a meeting of two in six calls, and replays it. Reads no input.
#![tactic(auto)]

ghost use Rattle.std.specs.Prelude.{◌≡◌, ◌≤◌, length, map, Ok, IfOk};
ghost use Rattle.reel.specs.Checking.{checked};
ghost use Rattle.archive.specs.Calls.{step_of};
ghost use Rattle.archive.specs.Replayed.{CameTo};

use archive::Replay;
use controller::{Carrier, Report};
use facility::{Request, RequestInvoke};
use reel::{Open, Recorded, Refusal, Unappended, check};
use std::process::ExitCode;
use tables::Level;

fn calling(reference: u8) -> Recorded {
    Recorded::Reported(Report::Calling { reference })
}

fn answer(reference: u8, leg: u8) -> Recorded {
    Recorded::Reported(Report::Answer {
        reference,
        leg,
        speech: true,
    })
}

fn request(reference: u8, id: i16, request: Request) -> Recorded {
    let carrier = Carrier::Facility { reference };
    let asked = RequestInvoke { id, request };
    Recorded::Settled { carrier, asked }
}

// Leg 1 begins a conference of three, and leg 2 is added to it.
fn meeting() -> [Recorded; 6] {
    [
        calling(1),
        answer(1, 1),
        request(1, 1, Request::Begin { size: Some(3) }),
        calling(2),
        answer(2, 2),
        request(2, 2, Request::Add { conference: 0 }),
    ]
}

// Puts calls on a new reel, closes it, and answers its octets: checking them answers the calls.
fn recorded<'a>(memory: &'a mut [u8], calls: &[Recorded]) -> Result<&'a [u8], Unappended>
    requires { 12 ≤ length memory.old }
    ensures { IfOk result (λ octets. checked octets.now ≡ Ok calls.now) }
{
    let mut reel = Open::new();
    for call in calls {
        reel = reel.append_call(memory, *call)?;
    }
    let length = reel.close(memory).length();
    Ok(&memory[..length])
}

// Where calls lead by way of a reel of 62 octets at most: to where they lead by themselves.
fn by_reel(level: Level, calls: &[Recorded]) -> Result<Replay, Refusal>
    ensures { IfOk result (λ replay. CameTo level (map step_of calls.now) replay) }
{
    let mut memory = [0; 62];
    let octets = recorded(&mut memory, calls).map_err(|unappended| unappended.why)?;
    Ok(Replay::of(level, check(octets)?))
}

fn main(rt: HostRuntime) -> std::io::Result<ExitCode> {
    let replay = match by_reel(Level::round(true), &meeting()) {
        Ok(replay) => replay,
        Err(why) => {
            eprintln!(rt; "meeting: reel refused {}", why.number())?;
            return Ok(ExitCode::FAILURE);
        }
    };
    let (listing, calls, refused) = (replay.listing(), replay.records(), replay.refused());
    println!(rt; "{listing}calls {calls} refused {refused}")?;
    Ok(ExitCode::SUCCESS)
}
