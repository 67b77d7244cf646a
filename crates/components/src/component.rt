// What a component says: the four kinds that a Facility element can hold.

// One value of the input, tag and length octets included, and the place of its first octet in the element.
#[derive(Clone, Copy)]
pub struct Parameter<'a> {
    pub octets: &'a [u8],
    pub place: usize,
}

// What a return result answers: the operation, and one value.
#[derive(Clone, Copy)]
pub struct Answer<'a> {
    pub operation: i16,
    pub parameter: Parameter<'a>,
}

// Why a component was rejected, by the kind of component at fault, with the problem's code. The code stays a number: any octet
// reads, with a name or without.
#[derive(Clone, Copy)]
pub enum Problem {
    General(u8),
    Invoke(u8),
    ReturnResult(u8),
    ReturnError(u8),
}

// Operations and errors stay numbers, since any that fits reads; the operations of a conference are named where requests are
// read.
#[derive(Clone, Copy)]
pub enum Component<'a> {
    Invoke {
        id: i16,
        operation: i16,
        argument: Option<Parameter<'a>>,
    },
    ReturnResult {
        id: i16,
        answer: Option<Answer<'a>>,
    },
    ReturnError {
        id: i16,
        error: i16,
        parameter: Option<Parameter<'a>>,
    },
    // The invoke id is NULL where the rejected component had none that could be read.
    Reject {
        id: Option<i16>,
        problem: Problem,
    },
}
