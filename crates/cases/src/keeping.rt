// The exchange's tables: parties come and go, and ids go round.

#[cfg(test)]
mod tests {
    use std::test::Fail;
    use tables::{Call, Conference, End, Event, Full, Mark, State, Tables};

    // Two join; the first leaves, and its PartyId is not given again at once.
    #[test]
    fn parties_come_and_go(rt: HostRuntime) -> Result<(), Fail> {
        let mut tables = Tables::new();
        tables.begin(Conference::new(0, 3, 5))?;
        tables.join(0, 0, 7)?;
        tables.join(0, 1, 8)?;
        tables.mark(0, 1, Mark::Isolated);
        tables.leave(0, 0);
        assert!(rt; tables.party(0, 0).is_none());
        assert_eq!(rt; tables.party_count(0), 1);
        let stays = tables.party_on(8).ok_or("one stays")?;
        assert_eq!(rt; stays.mark, Mark::Isolated);
        assert_eq!(rt; tables.parties_of(0).as_slice(), [stays].as_slice());
        assert!(rt; tables.is_up(8) && !tables.is_up(7));
        let conference = tables.linked_to(5).ok_or("it goes on")?;
        assert_eq!(rt; tables.next_party(conference), 2);
        tables.end(0);
        assert_eq!(rt; tables.conference_count(), 0);
        assert!(rt; !tables.is_up(8));
        Ok(())
    }

    // After 127 comes 0, and an id in use is passed over; there is no ninth conference.
    #[test]
    fn ids_go_round(rt: HostRuntime) -> Result<(), Fail> {
        let mut tables = Tables::new();
        assert_eq!(rt; tables.next_conference(), 0);
        tables.begin(Conference::new(0, 3, 1))?;
        tables.begin(Conference::new(127, 3, 2))?;
        assert_eq!(rt; tables.next_conference(), 1);
        for id in 1..7 {
            tables.begin(Conference::new(id, 3, id + 2))?;
        }
        assert_eq!(rt; tables.begin(Conference::new(7, 3, 9)), Err(Full));
        assert_eq!(rt; tables.next_conference(), 7);
        assert_eq!(rt; tables.next_disc(), 0);
        tables.give_disc_id(0);
        assert_eq!(rt; tables.next_disc(), 1);
        Ok(())
    }

    // A call is answered and held; its reference is found by its leg.
    #[test]
    fn a_call_leads_to_its_leg(rt: HostRuntime) -> Result<(), Fail> {
        let mut tables = Tables::new();
        let answer = Event::Answer {
            leg: 9,
            speech: true,
        };
        let call = Call::absent()
            .after(Event::Calling)
            .and_then(|c| c.after(answer))
            .and_then(|c| c.after(Event::Hold))
            .ok_or("each event belongs to its state")?;
        assert_eq!(rt; call.state, State::Held(End::Leg(9)));
        assert!(rt; tables.set_call(127, call) && !tables.set_call(128, call));
        assert_eq!(rt; tables.call_to(9), Some(127));
        assert_eq!(rt; tables.call(127), call);
        assert!(rt; tables.is_up(9));
        Ok(())
    }
}
