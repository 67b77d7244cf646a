// The line to the remote users: what waits after a telling, and tests of both kinds of line.
ghost use Rattle.std.specs.Prelude.{◌≡◌, ◌≤◌, length};
ghost use Rattle.line.specs.Outboxes.{waiting};
ghost use Rattle.cases.specs.Telling.{FirstWaits, OneClears};

use line::{Line, Notice, Outbox};

// The first message that waits once a new outbox was told a notice for a leg; none for what is no leg.
pub fn first_message(leg: u8, notice: Notice) -> Option<[u8; 5]>
    ensures { FirstWaits leg notice result }
{
    let mut outbox = Outbox::new();
    outbox.tell(leg, notice).ok()?;
    let message = outbox.message(0)?;
    Some(*message.octets)
}

// How many messages wait on an outbox: at most 128, whatever it was told.
pub fn waiting_on(outbox: &Outbox) -> usize
    ensures waiting { result ≡ length (waiting outbox.now) }
    ensures few { result ≤ 128 }
{
    outbox.waiting()
}

// What is heard where one party clears. It does nothing: its contract is the example.
pub fn worked_line()
    ensures { OneClears }
{}

#[cfg(test)]
mod tests {
    use line::{
        Act, Board, BothLines, Line, Notice, Outbox, OwnNotice, Refusal, Standing, on_new_lines,
        tell_each,
    };
    use std::test::Fail;

    fn standing(latest: OwnNotice, heard: i8) -> Result<Standing, Refusal> {
        Ok(Standing {
            latest: Some(latest),
            heard,
        })
    }

    fn tell(leg: u8, notice: Notice) -> Act {
        Act::Tell { leg, notice }
    }

    // Legs 1 and 2 join a conference in turn; then leg 1 clears. There is no leg 65.
    #[test]
    fn one_joins_and_one_clears(rt: HostRuntime) -> Result<(), Fail> {
        let BothLines { outbox, board } = on_new_lines(&[
            tell(1, Notice::Established),
            tell(2, Notice::Established),
            tell(65, Notice::OtherAdded),
            tell(1, Notice::OtherAdded),
            tell(2, Notice::OtherDisconnected),
        ]);
        assert_eq!(rt; outbox.standing(1), standing(OwnNotice::Established, 1));
        assert_eq!(rt; outbox.standing(2), standing(OwnNotice::Established, -1));
        assert_eq!(rt; board.standing(2), standing(OwnNotice::Established, -1));
        assert_eq!(rt; outbox.standing(3), Ok(Standing::new()));
        assert_eq!(rt; outbox.room(), 124);
        let last = outbox.message(3).ok_or("four wait")?;
        assert_eq!(rt; last.place, 3);
        assert_eq!(rt; *last.octets, [0x02, 0x6e, 0x27, 0x01, 0xca]);
        assert!(rt; outbox.message(4).is_none());
        Ok(())
    }

    #[test]
    fn a_full_outbox_refuses_until_collected(rt: HostRuntime) -> Result<(), Fail> {
        let mut outbox = Outbox::new();
        for _ in 0..128 {
            outbox.tell(64, Notice::OtherAdded)?;
        }
        assert_eq!(rt; outbox.tell(64, Notice::OtherAdded), Err(Refusal::NoRoom));
        assert_eq!(rt;
            outbox.tell(65, Notice::OtherAdded),
            Err(Refusal::NoSuchLeg)
        );
        assert_eq!(rt; outbox.waiting(), 128);
        outbox.collect();
        assert_eq!(rt; outbox.waiting(), 0);
        assert_eq!(rt; outbox.room(), 128);
        assert_eq!(rt;
            outbox.standing(64),
            Ok(Standing {
                latest: None,
                heard: 127,
            })
        );
        Ok(())
    }

    #[test]
    fn all_are_told_or_none(rt: HostRuntime) -> Result<(), Fail> {
        let mut outbox = Outbox::new();
        for _ in 0..126 {
            outbox.tell(1, Notice::OtherIsolated)?;
        }
        let legs = [7, 8, 9];
        assert_eq!(rt;
            tell_each(&mut outbox, &legs, Notice::OtherSplit),
            Err(Refusal::NoRoom)
        );
        assert_eq!(rt;
            tell_each(&mut outbox, &[7, 0], Notice::OtherSplit),
            Err(Refusal::NoSuchLeg)
        );
        assert_eq!(rt; outbox.waiting(), 126);
        tell_each(&mut outbox, &legs[0..2], Notice::OtherSplit)?;
        let last = outbox.message(127).ok_or("128 wait")?;
        assert_eq!(rt; *last.octets, [0x08, 0x6e, 0x27, 0x01, 0xc9]);
        assert_eq!(rt; outbox.room(), 0);
        Ok(())
    }

    #[test]
    fn a_board_is_never_full(rt: HostRuntime) -> Result<(), Fail> {
        let mut board = Board::new();
        for _ in 0..200 {
            board.tell(1, Notice::OtherDisconnected)?;
        }
        assert_eq!(rt; board.room(), 128);
        board.tell(1, Notice::Isolated)?;
        board.collect();
        assert_eq!(rt; board.standing(1), standing(OwnNotice::Isolated, -127));
        assert_eq!(rt; board.standing(0), Err(Refusal::NoSuchLeg));
        Ok(())
    }
}
