// Conferences from call to answer, done by an operator.

#[cfg(test)]
mod tests {
    use archive::Replay;
    use controller::{Carrier, Controller, PendingReply, Report};
    use facility::{Request, RequestInvoke};
    use line::{Board, Line, Notice, Outbox, OwnNotice, Standing};
    use operator::{Answer, Step};
    use std::test::Fail;
    use tables::{Level, Mark, Refusal};

    // A request with id 7.
    fn asking(request: Request) -> RequestInvoke {
        RequestInvoke { id: 7, request }
    }

    // A request by FACILITY, settled.
    fn facility(reference: u8, request: Request) -> Step {
        Step::Settled {
            carrier: Carrier::Facility { reference },
            asked: asking(request),
        }
    }

    // A remote user answers on a leg.
    fn answered(reference: u8, leg: u8) -> Step {
        Step::Reported(Report::Answer {
            reference,
            leg,
            speech: true,
        })
    }

    // Leg 1 begins a conference of up to three on reference 1, and leg 2 is added from reference 2.
    fn meeting_steps() -> [Step; 6] {
        [
            Step::Reported(Report::Calling { reference: 1 }),
            answered(1, 1),
            facility(1, Request::Begin { size: Some(3) }),
            Step::Reported(Report::Calling { reference: 2 }),
            answered(2, 2),
            facility(2, Request::Add { conference: 0 }),
        ]
    }

    fn meeting(outbox: &mut Outbox) -> Controller {
        let mut controller = operator::start(Level::round(true), outbox);
        for step in meeting_steps() {
            let _ = operator::step(&mut controller, outbox, step);
        }
        controller
    }

    // Both hear that they are in a conference, and the first hears of the second; then the first clears, and its link gets the
    // PartyDISC.
    #[test]
    fn one_clears(rt: HostRuntime) -> Result<(), Fail> {
        let mut outbox = Outbox::new();
        let mut controller = meeting(&mut outbox);
        assert_eq!(rt; outbox.waiting(), 3);
        let clearing = Step::Reported(Report::RemoteClearing { leg: 1 });
        let Answer::Done { gone, disc } = operator::step(&mut controller, &mut outbox, clearing)
        else {
            return Err(Fail::from("the report is accepted"));
        };
        assert_eq!(rt; gone, 1);
        let disc = disc.ok_or("the link hears of it")?;
        assert_eq!(rt; disc.link, 1);
        assert_eq!(rt;
            disc.message().octets(),
            [
                0x62, 0x1c, 0x0c, 0x91, 0xa1, 0x09, 0x02, 0x01, 0x00, 0x02, 0x01, 0x2e, 0x02, 0x01,
                0x00,
            ]
            .as_slice()
        );
        assert_eq!(rt;
            outbox.standing(2),
            Ok(Standing {
                latest: Some(OwnNotice::Established),
                heard: -1,
            })
        );
        Ok(())
    }

    // Whether two answers are the same, to the octets.
    fn alike(one: Answer, other: Answer) -> bool {
        match (one, other) {
            (Answer::Refused(a), Answer::Refused(b)) => a == b,
            (Answer::Done { gone, disc }, Answer::Done { gone: g, disc: d }) => {
                gone == g && disc == d
            }
            (
                Answer::Replied { message, gone },
                Answer::Replied {
                    message: m,
                    gone: g,
                },
            ) => { message.octets() == m.octets() && gone == g }
            _ => false,
        }
    }

    // Steps taken in one call on an outbox, on which something was told before, and on a board: the answers and the tables are the
    // same, and what waits is what these steps told.
    #[test]
    fn in_one_call_on_both_lines(rt: HostRuntime) -> Result<(), Fail> {
        let mut outbox = Outbox::new();
        let mut board = Board::new();
        outbox.tell(2, Notice::Isolated)?;
        let steps = meeting_steps();
        let round = Level::round(true);
        let mut sent = Vec::with_capacity(rt.alloc(), 6)?;
        let mut worked_out = Vec::with_capacity(rt.alloc(), 6)?;
        let delivering = operator::run(round, &mut outbox, &steps, &mut sent)?;
        let reading = operator::run(round, &mut board, &steps, &mut worked_out)?;
        assert_eq!(rt; sent.len(), 6);
        assert_eq!(rt; worked_out.len(), 6);
        let mut pairs = sent.iter().zip(worked_out.iter());
        assert!(rt; pairs.all(|(one, other)| alike(*one, *other)));
        assert!(rt; *delivering.tables() == *reading.tables());
        assert!(rt; operator::run(round, &mut board, &steps, &mut Vec::new(rt.alloc())).is_err());
        assert_eq!(rt; outbox.waiting(), 3);
        let last = outbox.message(2).ok_or("leg 1 hears of leg 2")?;
        assert_eq!(rt; *last.octets, [1, 0x6e, 0x27, 1, 0xc4]);
        assert_eq!(rt; outbox.standing(1), board.standing(1));
        assert_eq!(rt; outbox.standing(2), board.standing(2));
        Ok(())
    }

    // A reject for want of room changes nothing; what was isolated so stays.
    #[test]
    fn no_room_to_tell(rt: HostRuntime) -> Result<(), Fail> {
        let mut outbox = Outbox::new();
        let mut controller = meeting(&mut outbox);
        let isolate = facility(1, Request::Isolate { party: 1 });
        let reattach = facility(1, Request::Reattach { party: 1 });
        for _ in 0..31 {
            let _ = operator::step(&mut controller, &mut outbox, isolate);
            let _ = operator::step(&mut controller, &mut outbox, reattach);
        }
        assert_eq!(rt; outbox.room(), 1);
        let Answer::Replied { message, gone } = operator::step(
            &mut controller,
            &mut outbox,
            isolate,
        ) else {
            return Err(Fail::from("the request is answered"));
        };
        assert_eq!(rt; gone, 0);
        assert_eq!(rt;
            message.octets(),
            [
                0x62, 0x1c, 0x09, 0x91, 0xa4, 0x06, 0x02, 0x01, 0x07, 0x81, 0x01, 0x03
            ]
            .as_slice()
        );
        let party = controller.tables().party(0, 1).ok_or("it is there")?;
        assert_eq!(rt; party.mark, Mark::Joined);
        Ok(())
    }

    // Takes a step, and replays it if it belongs on a reel.
    fn record(
        controller: &mut Controller,
        outbox: &mut Outbox,
        replay: &mut Replay,
        step: Step,
    ) -> bool {
        let recording = archive::step(controller, outbox, step);
        if recording.belongs {
            let _ = replay.take(step);
        }
        recording.belongs
    }

    // What want of room stops is not recorded, and replaying the rest leads to the same tables and standings; a report that is
    // refused for its state is recorded and counted, one of a reference out of range is neither.
    #[test]
    fn archive_of_a_full_line(rt: HostRuntime) -> Result<(), Fail> {
        let mut outbox = Outbox::new();
        let mut controller = operator::start(Level::round(true), &mut outbox);
        let mut replay = Replay::new(Level::round(true));
        for step in meeting_steps() {
            assert!(rt; record(&mut controller, &mut outbox, &mut replay, step));
        }
        let isolate = facility(1, Request::Isolate { party: 1 });
        let reattach = facility(1, Request::Reattach { party: 1 });
        for _ in 0..31 {
            assert!(rt; record(&mut controller, &mut outbox, &mut replay, isolate));
            assert!(rt; record(&mut controller, &mut outbox, &mut replay, reattach));
        }
        assert!(rt; !record(&mut controller, &mut outbox, &mut replay, isolate));
        assert!(rt; !record(&mut controller, &mut outbox, &mut replay, Step::Collected));
        let hold = |reference| Step::Reported(Report::Hold { reference });
        assert!(rt; record(&mut controller, &mut outbox, &mut replay, hold(3)));
        assert!(rt; !record(&mut controller, &mut outbox, &mut replay, hold(128)));
        assert_eq!(rt; replay.records(), 69);
        assert_eq!(rt; replay.refused(), 1);
        assert!(rt; *replay.tables() == *controller.tables());
        assert_eq!(rt; replay.board().standing(1), outbox.standing(1));
        assert_eq!(rt; replay.board().standing(2), outbox.standing(2));
        Ok(())
    }

    // A reference out of range is refused before there is anything to answer; what is pending is settled or turned away.
    #[test]
    fn pending_replies(rt: HostRuntime) {
        let mut outbox = Outbox::new();
        let mut controller = Controller::new(Level::trio(false));
        let begin = asking(Request::Begin { size: None });
        let carrier = |reference| Carrier::Setup {
            reference,
            speech: true,
        };
        match PendingReply::new(carrier(128), begin) {
            Ok(pending) => {
                let _ = pending.turn_away();
                assert!(rt; false);
            }
            Err(why) => assert_eq!(rt; why, Refusal::OutOfRange),
        }
        match PendingReply::new(carrier(127), begin) {
            Ok(pending) => {
                let reply = pending.settle(&mut controller, &mut outbox);
                assert_eq!(rt; reply.gone, 0);
                assert_eq!(rt;
                    reply.message.octets(),
                    [
                        0x5a, 0x08, 0x02, 0x82, 0x9f, 0x1c, 0x09, 0x91, 0xa3, 0x06, 0x02, 0x01,
                        0x07, 0x02, 0x01, 0x00,
                    ]
                    .as_slice()
                );
            }
            Err(_) => assert!(rt; false),
        }
    }
}
