// What writing a component answers and leaves in the memory, and which messages are made.

#[cfg(test)]
mod tests {
    use facility::{Answer, Component, Message, Parameter, Refusal};

    // A drop, id 1, with these octets as its argument.
    fn drop_with(octets: &[u8]) -> Component<'_> {
        Component::Invoke {
            id: 1,
            operation: 43,
            argument: Some(Parameter { octets, place: 0 }),
        }
    }

    // What writing answers, with a refusal by its number.
    fn written(component: Component<'_>, memory: &mut [u8]) -> Result<usize, u8> {
        component.write(memory).map_err(Refusal::number)
    }

    #[test]
    fn a_drop_fits_exactly(rt: HostRuntime) {
        let mut memory = [0xee; 16];
        let drop = drop_with(&[0x02, 0x01, 0x05]);
        assert_eq!(rt; written(drop, &mut memory[0..14]), Ok(14));
        assert_eq!(rt;
            memory,
            [
                0x1c, 0x0c, 0x91, 0xa1, 0x09, 0x02, 0x01, 0x01, 0x02, 0x01, 0x2b, 0x02, 0x01, 0x05,
                0xee, 0xee,
            ]
        );
    }

    #[test]
    fn one_octet_too_little(rt: HostRuntime) {
        let mut memory = [0xee; 13];
        let drop = drop_with(&[0x02, 0x01, 0x05]);
        assert_eq!(rt; written(drop, &mut memory), Err(8));
        assert_eq!(rt; memory, [0xee; 13]);
    }

    #[test]
    fn an_argument_that_is_not_one_value(rt: HostRuntime) {
        let mut memory = [0xee; 13];
        let too_short = drop_with(&[0x02, 0x02, 0x05]);
        let too_long = drop_with(&[0x02, 0x01, 0x05, 0x00]);
        let empty = drop_with(&[]);
        assert_eq!(rt; written(too_short, &mut memory), Err(16));
        assert_eq!(rt; written(too_long, &mut memory), Err(16));
        assert_eq!(rt; written(empty, &mut memory), Err(16));
        assert_eq!(rt; memory, [0xee; 13]);
    }

    #[test]
    fn an_argument_that_is_too_long(rt: HostRuntime) {
        let mut memory = [0xee; 140];
        let mut octets = [0; 124];
        octets[0] = 0x04;
        octets[1] = 119;
        let longest = drop_with(&octets[0..121]);
        assert_eq!(rt; written(longest, &mut memory), Ok(132));
        octets[1] = 120;
        let one_more = drop_with(&octets[0..122]);
        assert_eq!(rt; written(one_more, &mut memory), Err(16));
        assert_eq!(rt; memory[132], 0xee);
    }

    // The result of a begin, id 7, that gave the ConferenceId 0: an element of 18 octets.
    fn begun() -> Component<'static> {
        Component::ReturnResult {
            id: 7,
            answer: Some(Answer {
                operation: 40,
                parameter: Parameter {
                    octets: &[0x30, 0x03, 0x02, 0x01, 0x00],
                    place: 0,
                },
            }),
        }
    }

    #[test]
    fn a_connect_with_a_result(rt: HostRuntime) {
        let connect = Message::new(&[0x07], &begun()).expect(&rt, "fits");
        assert_eq!(rt;
            connect.octets(),
            [
                0x07, 0x1c, 0x10, 0x91, 0xa2, 0x0d, 0x02, 0x01, 0x07, 0x30, 0x08, 0x02, 0x01, 0x28,
                0x30, 0x03, 0x02, 0x01, 0x00,
            ]
            .as_slice()
        );
    }

    #[test]
    fn a_message_of_23_octets_and_no_more(rt: HostRuntime) {
        assert!(rt; Message::new(&[0x45, 0x08, 0x02, 0x82, 0x9f], &begun()).is_ok());
        let long = Message::new(&[0; 6], &begun()).map_err(Refusal::number);
        assert_eq!(rt; long.err(), Some(8));
        let unreadable = Message::new(&[0; 30], &drop_with(&[])).map_err(Refusal::number);
        assert_eq!(rt; unreadable.err(), Some(16));
    }
}
