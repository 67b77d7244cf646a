// How an account of octets is printed: what they say as an element, or their fault.
ghost use Rattle.std.specs.Prelude.{Some};
ghost use Rattle.std.specs.Fmt.{WritesOnOk};
ghost use Rattle.decode.specs.Account.{invoked, reading_account};
ghost use Rattle.components.specs.Reading.{reading};

use facility::{Component, Replied, read_element, read_request};
use std::fmt;

// The request that an invoke makes, or its fault, on a line of its own.
fn write_invoked<W: fmt::Write>(f: &mut fmt::Formatter<W>, octets: &[u8]) -> fmt::Result
    ensures { WritesOnOk W.write_str_gives f.old result (invoked octets.now) f.new }
{
    match read_request(octets) {
        Ok(invoke) => write!(f, "\n  {}", invoke.request),
        Err(fault) => write!(f, "\n  {}", Replied(fault)),
    }
}

// The octets of an element, which print as what they say.
#[derive(Clone, Copy)]
pub struct Account<'a>(pub &'a [u8]);

impl fmt::Display for Account<'_> {
    ghost output = { λ a. Some (reading_account (reading a.0.now) a.0.now) };

    fn fmt<W: fmt::Write>(&self, f: &mut fmt::Formatter<W>) -> fmt::Result {
        match read_element(self.0) {
            Ok(component) => {
                component.fmt(f)?;
                match component {
                    Component::Invoke { .. } => write_invoked(f, self.0),
                    _ => Ok(()),
                }
            }
            Err(fault) => Replied(fault).fmt(f),
        }
    }
}
