// What is printed: each case of each text of the libraries, with its numbers at both ends, as the rule books word it.

#[cfg(test)]
mod tests {
    use facility::{Answer, Cause, Component, Layer, Pairs, Parameter, Problem, Replied, Request};
    use line::{Board, Line, Notice, Outbox};
    use listing::Listing;
    use std::fmt;
    use std::test::Fail;
    use tables::{Conference, Full, LevelRefusal, Mark, Phase, Refusal, Tables};

    // A value has to print as this text.
    fn prints<T: fmt::Display>(rt: &HostRuntime, value: &T, text: &str) -> Result<(), Fail> {
        let printed = format!(in rt.alloc(); "{value}")?;
        if printed.as_str() != text {
            return Err(Fail::new(format_args!("prints {printed}, and not {text}")));
        }
        Ok(())
    }

    #[test]
    fn octets(rt: HostRuntime) -> Result<(), Fail> {
        let texts: [(&[u8], &str); 3] = [
            (&[], ""),
            (&[0x00, 0x09, 0x0a, 0x0f, 0x10], " 00 09 0A 0F 10"),
            (&[0x7f, 0x80, 0x9f, 0xa0, 0xff], " 7F 80 9F A0 FF"),
        ];
        for (octets, text) in texts {
            prints(&rt, &Pairs(octets), text)?;
        }
        Ok(())
    }

    #[test]
    fn values(rt: HostRuntime) -> Result<(), Fail> {
        let texts: [(&[u8], usize, &str); 3] = [
            (&[], 0, "parameter at 0"),
            (&[0x05, 0x00], 131, "parameter 05 00 at 131"),
            (&[0xbc], usize::MAX, "parameter BC at 18446744073709551615"),
        ];
        for (octets, place, text) in texts {
            prints(&rt, &Parameter { octets, place }, text)?;
        }
        Ok(())
    }

    // One value, as it stands in an element.
    const VALUE: Parameter<'static> = Parameter {
        octets: &[0x02, 0x01, 0x7f],
        place: 13,
    };

    #[test]
    fn answers(rt: HostRuntime) -> Result<(), Fail> {
        let texts = [
            (i16::MIN, "operation -32768 parameter 02 01 7F at 13"),
            (-1, "operation -1 parameter 02 01 7F at 13"),
            (0, "operation 0 parameter 02 01 7F at 13"),
            (i16::MAX, "operation 32767 parameter 02 01 7F at 13"),
        ];
        for (operation, text) in texts {
            let answer = Answer {
                operation,
                parameter: VALUE,
            };
            prints(&rt, &answer, text)?;
        }
        Ok(())
    }

    #[test]
    fn problems(rt: HostRuntime) -> Result<(), Fail> {
        let texts = [
            (Problem::General(0), "general problem 0"),
            (Problem::General(255), "general problem 255"),
            (Problem::Invoke(0), "invoke problem 0"),
            (Problem::Invoke(255), "invoke problem 255"),
            (Problem::ReturnResult(0), "result problem 0"),
            (Problem::ReturnResult(255), "result problem 255"),
            (Problem::ReturnError(0), "error problem 0"),
            (Problem::ReturnError(255), "error problem 255"),
        ];
        for (problem, text) in texts {
            prints(&rt, &problem, text)?;
        }
        Ok(())
    }

    fn invoke(id: i16, operation: i16, argument: Option<Parameter<'_>>) -> Component<'_> {
        Component::Invoke {
            id,
            operation,
            argument,
        }
    }

    fn result(id: i16, answer: Option<Answer<'_>>) -> Component<'_> {
        Component::ReturnResult { id, answer }
    }

    fn error(id: i16, error: i16, parameter: Option<Parameter<'_>>) -> Component<'_> {
        Component::ReturnError {
            id,
            error,
            parameter,
        }
    }

    fn reject(id: Option<i16>, problem: Problem) -> Component<'static> {
        Component::Reject { id, problem }
    }

    #[test]
    fn components(rt: HostRuntime) -> Result<(), Fail> {
        let answer = Answer {
            operation: 40,
            parameter: VALUE,
        };
        let texts = [
            (invoke(0, 0, None), "invoke 0 operation 0"),
            (
                invoke(i16::MIN, i16::MAX, None),
                "invoke -32768 operation 32767",
            ),
            (
                invoke(i16::MAX, i16::MIN, None),
                "invoke 32767 operation -32768",
            ),
            (
                invoke(-1, 43, Some(VALUE)),
                "invoke -1 operation 43 parameter 02 01 7F at 13",
            ),
            (result(i16::MAX, None), "result 32767"),
            (
                result(i16::MIN, Some(answer)),
                "result -32768 operation 40 parameter 02 01 7F at 13",
            ),
            (error(0, 0, None), "error 0 error 0"),
            (error(i16::MIN, i16::MAX, None), "error -32768 error 32767"),
            (
                error(i16::MAX, i16::MIN, Some(VALUE)),
                "error 32767 error -32768 parameter 02 01 7F at 13",
            ),
            (
                reject(None, Problem::General(2)),
                "reject none general problem 2",
            ),
            (
                reject(Some(0), Problem::Invoke(3)),
                "reject 0 invoke problem 3",
            ),
            (
                reject(Some(i16::MIN), Problem::ReturnResult(0)),
                "reject -32768 result problem 0",
            ),
            (
                reject(Some(i16::MAX), Problem::ReturnError(255)),
                "reject 32767 error problem 255",
            ),
        ];
        for (component, text) in texts {
            prints(&rt, &component, text)?;
        }
        Ok(())
    }

    #[test]
    fn layers(rt: HostRuntime) -> Result<(), Fail> {
        let texts = [
            (Layer::Element, "element"),
            (Layer::Component, "component"),
            (Layer::Argument, "argument"),
        ];
        for (layer, text) in texts {
            prints(&rt, &layer, text)?;
        }
        Ok(())
    }

    // Each fault by itself, and with its reply, where it has one: the reply has an invoke id in as few octets as it takes, one from
    // -128 to 127.
    #[test]
    fn faults(rt: HostRuntime) -> Result<(), Fail> {
        let no_operation = |id| Cause::Operation { id }.at(8);
        let ill_argument = |id| Cause::Argument { id }.at(11);
        let texts = [
            (Cause::Count.at(0), "fault 11 at 0 element", ""),
            (
                Cause::Count.at(usize::MAX),
                "fault 11 at 18446744073709551615 element",
                "",
            ),
            (Cause::Identifier.at(0), "fault 12 at 0 element", ""),
            (Cause::Length.at(1), "fault 13 at 1 element", ""),
            (Cause::Profile.at(2), "fault 14 at 2 element", ""),
            (
                Cause::Tag.at(3),
                "fault 15 at 3 component",
                " reply 62 1C 08 91 A4 05 05 00 80 01 00",
            ),
            (
                Cause::Structure.at(131),
                "fault 16 at 131 component",
                " reply 62 1C 08 91 A4 05 05 00 80 01 02",
            ),
            (
                Cause::Mistyped.at(132),
                "fault 17 at 132 component",
                " reply 62 1C 08 91 A4 05 05 00 80 01 01",
            ),
            (Cause::NoInvoke.at(3), "fault 18 at 3 argument", ""),
            (
                no_operation(i16::MIN),
                "fault 18 at 8 argument",
                " reply 62 1C 0A 91 A4 07 02 02 80 00 81 01 01",
            ),
            (
                no_operation(-129),
                "fault 18 at 8 argument",
                " reply 62 1C 0A 91 A4 07 02 02 FF 7F 81 01 01",
            ),
            (
                no_operation(-128),
                "fault 18 at 8 argument",
                " reply 62 1C 09 91 A4 06 02 01 80 81 01 01",
            ),
            (
                no_operation(0),
                "fault 18 at 8 argument",
                " reply 62 1C 09 91 A4 06 02 01 00 81 01 01",
            ),
            (
                ill_argument(0),
                "fault 19 at 11 argument",
                " reply 62 1C 09 91 A4 06 02 01 00 81 01 02",
            ),
            (
                ill_argument(127),
                "fault 19 at 11 argument",
                " reply 62 1C 09 91 A4 06 02 01 7F 81 01 02",
            ),
            (
                ill_argument(128),
                "fault 19 at 11 argument",
                " reply 62 1C 0A 91 A4 07 02 02 00 80 81 01 02",
            ),
            (
                ill_argument(i16::MAX),
                "fault 19 at 11 argument",
                " reply 62 1C 0A 91 A4 07 02 02 7F FF 81 01 02",
            ),
        ];
        for (fault, text, reply) in texts {
            prints(&rt, &fault, text)?;
            let replied = format!(in rt.alloc(); "{text}{reply}")?;
            prints(&rt, &Replied(fault), replied.as_str())?;
        }
        Ok(())
    }

    #[test]
    fn requests(rt: HostRuntime) -> Result<(), Fail> {
        let begin = |size| Request::Begin { size };
        let split = |conference, party| Request::Split { conference, party };
        let texts = [
            (begin(None), "begin"),
            (begin(Some(0)), "begin size 0"),
            (begin(Some(127)), "begin size 127"),
            (Request::Add { conference: 0 }, "add conference 0"),
            (Request::Add { conference: 127 }, "add conference 127"),
            (split(0, 127), "split conference 0 party 127"),
            (split(127, 0), "split conference 127 party 0"),
            (Request::Drop { party: 0 }, "drop party 0"),
            (Request::Drop { party: 127 }, "drop party 127"),
            (Request::Isolate { party: 0 }, "isolate party 0"),
            (Request::Isolate { party: 127 }, "isolate party 127"),
            (Request::Reattach { party: 0 }, "reattach party 0"),
            (Request::Reattach { party: 127 }, "reattach party 127"),
        ];
        for (request, text) in texts {
            prints(&rt, &request, text)?;
        }
        Ok(())
    }

    #[test]
    fn refusals(rt: HostRuntime) -> Result<(), Fail> {
        prints(&rt, &LevelRefusal::Size, "1: not a size from 1 to 30")?;
        prints(&rt, &LevelRefusal::Conferences, "2: not 1 to 8 conferences")?;
        let texts = [
            (Refusal::OutOfRange, "3: no such reference or leg"),
            (Refusal::WrongState, "4: not in this state of the call"),
            (Refusal::WrongLeg, "5: the leg is up, or it is not"),
            (
                Refusal::NoRoom,
                "6: no room for what the others would be told",
            ),
        ];
        for (refusal, text) in texts {
            prints(&rt, &refusal, text)?;
        }
        prints(&rt, &Full, "no room in the tables")?;
        prints(&rt, &line::Refusal::NoSuchLeg, "3: no such leg")?;
        prints(&rt, &line::Refusal::NoRoom, "6: no room for another notice")
    }

    // Two join a conference in turn.
    #[test]
    fn two_in_a_conference(rt: HostRuntime) -> Result<(), Fail> {
        let mut tables = Tables::new();
        let mut outbox = Outbox::new();
        tables.begin(Conference::new(0, 3, 1))?;
        tables.join(0, 0, 1)?;
        outbox.tell(1, Notice::Established)?;
        tables.join(0, 1, 2)?;
        outbox.tell(2, Notice::Established)?;
        outbox.tell(1, Notice::OtherAdded)?;
        let listing = Listing {
            tables: &tables,
            line: &outbox,
        };
        prints(
            &rt,
            &listing,
            "conference 0 size 3 open\n\
             party 0 leg 1 joined heard 1\n\
             party 1 leg 2 joined heard 0\n",
        )
    }

    // Conference 1 began before conference 0, and party 4 joined before party 0.
    #[test]
    fn conferences_ascend_and_parties_stand_as_they_joined(rt: HostRuntime) -> Result<(), Fail> {
        let mut tables = Tables::new();
        let mut board = Board::new();
        tables.begin(Conference::new(1, 10, 5))?;
        tables.begin(Conference::new(0, 30, 127))?;
        tables.join(0, 4, 64)?;
        tables.join(1, 2, 9)?;
        tables.join(0, 0, 7)?;
        tables.mark(0, 0, Mark::Isolated);
        tables.set_phase(1, Phase::Ending);
        for _ in 0..3 {
            board.tell(64, Notice::OtherDisconnected)?;
        }
        let listing = Listing {
            tables: &tables,
            line: &board,
        };
        prints(
            &rt,
            &listing,
            "conference 0 size 30 open\n\
             party 4 leg 64 joined heard -3\n\
             party 0 leg 7 isolated heard 0\n\
             conference 1 size 10 ending\n\
             party 2 leg 9 joined heard 0\n",
        )
    }

    // All ends of its numbers: ids and sizes, legs, and the sums, which stop there.
    #[test]
    fn a_listing_at_its_ends(rt: HostRuntime) -> Result<(), Fail> {
        let mut tables = Tables::new();
        let mut board = Board::new();
        tables.begin(Conference::new(127, 30, 127))?;
        tables.begin(Conference::new(1, 1, 2))?;
        tables.begin(Conference::new(0, 0, 1))?;
        tables.set_phase(0, Phase::Ending);
        tables.set_phase(127, Phase::Ending);
        tables.join(127, 127, 64)?;
        tables.join(127, 0, 1)?;
        tables.join(1, 0, 2)?;
        tables.mark(127, 127, Mark::Isolated);
        for _ in 0..128 {
            board.tell(1, Notice::OtherAdded)?;
            board.tell(64, Notice::OtherSplit)?;
        }
        let listing = Listing {
            tables: &tables,
            line: &board,
        };
        prints(
            &rt,
            &listing,
            "conference 0 size 0 ending\n\
             conference 1 size 1 open\n\
             party 0 leg 2 joined heard 0\n\
             conference 127 size 30 ending\n\
             party 127 leg 64 isolated heard -127\n\
             party 0 leg 1 joined heard 127\n",
        )
    }

    #[test]
    fn nothing_to_list(rt: HostRuntime) -> Result<(), Fail> {
        let listing = Listing {
            tables: &Tables::new(),
            line: &Board::new(),
        };
        prints(&rt, &listing, "")
    }
}
