// How an element is laid out: identifier, length, profile, and then the component, with its tag and its length in front of the
// values that it holds.

// The identifier of the Facility information element.
pub(crate) const IDENTIFIER: u8 = 0x1c;

// The protocol profile: ROSE.
pub(crate) const PROFILE: u8 = 0x91;

// The most octets of an element.
pub(crate) const MOST_OCTETS: usize = 132;

// The places of what stands in the head.
pub(crate) const IDENTIFIER_PLACE: usize = 0;

pub(crate) const LENGTH_PLACE: usize = 1;

pub(crate) const PROFILE_PLACE: usize = 2;

// The place of the component, and that of its first value, the invoke id.
pub const COMPONENT_PLACE: usize = 3;

pub const ID_PLACE: usize = 5;

// The levels of nesting of a component, itself the first; what is left for a value of it, and for one in a SEQUENCE of it.
pub(crate) const LEVELS: u8 = 8;

pub(crate) const VALUE_LEVELS: u8 = 7;

pub(crate) const INNER_LEVELS: u8 = 6;

// The tags of a problem, by the kind of component at fault.
pub(crate) const GENERAL_PROBLEM: u8 = 0x80;

pub(crate) const INVOKE_PROBLEM: u8 = 0x81;

pub(crate) const RETURN_RESULT_PROBLEM: u8 = 0x82;

pub(crate) const RETURN_ERROR_PROBLEM: u8 = 0x83;
