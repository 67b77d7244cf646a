// The tags of the types that are read and written, and the sizes of a value's parts.

// A number.
pub const INTEGER: u8 = 0x02;

// No value.
pub const NULL: u8 = 0x05;

// Values one behind the other.
pub const SEQUENCE: u8 = 0x30;

// The tag and the length octet that stand in front of a value's contents.
pub const HEAD: usize = 2;

// The most contents that a length octet counts.
pub const MOST_CONTENTS: u8 = 127;
