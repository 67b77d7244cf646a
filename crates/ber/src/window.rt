// Whether values are well structured, checked by a reader whose window narrows to each nested value.
ghost use Rattle.std.specs.Prelude.{◌≡◌, ◌-◌, ◌<◌, MatchOption};
ghost use Rattle.ber.specs.Windows.{Within, Kept, ValueChecked, ListChecked, StructureChecked};

use crate::tags::HEAD;
use crate::value::{is_constructed, read_value};

// A value that is not well structured, by the place of its first octet.
#[derive(Clone, Copy, PartialEq, Eq, Debug)]
pub struct BadValue {
    pub place: usize,
}

// Octets, and the window over those still to be read: from `pos` up to `end`. Places and no sub-slice, since a fault is told
// by its place in all the octets, and the guard below puts the outer end back.
#[derive(Clone, Copy)]
struct Window<'a> {
    octets: &'a [u8],
    pos: usize,
    end: usize,
}

// Stands while the window is narrowed to a nested value. The outer end is restored when the value is left, also by a fault.
struct Nested<'w, 'a> {
    window: &'w mut Window<'a>,
    outer: usize,
}

impl Drop for Nested<'_, '_> {
    fn drop(self)
        ensures end_value { self.exit.0.now.end ≡ self.entry.outer }
        ensures pos_value { self.exit.0.now.pos ≡ self.entry.window.now.pos }
        ensures octets_value { self.exit.0.now.octets ≡ self.entry.window.now.octets }
    {
        self.window.end = self.outer;
        let Nested {
            window: _,
            outer: _,
        } = self;
    }
}

// The levels of nesting that are left inside a value; none where the value is nested too deep itself.
fn inner_levels(levels: u8) -> Option<u8>
    ensures { MatchOption result (levels ≡ 0) (λ n. (0 < levels) × (n ≡ levels - 1)) }
{
    levels.checked_sub(1)
}

impl Window<'_> {
    // Passes over the value at the front, or answers the first badly structured value.
    #[cycle(check_list_check_value)]
    fn check_value(&mut self, levels: u8) -> Result<(), BadValue>
        requires within { Within self.old }
        ensures kept { Kept self.old self.new }
        ensures checked { ValueChecked levels self.old self.new result }
    {
        let place = self.pos;
        let inner = inner_levels(levels).ok_or(BadValue { place })?;
        let (value, _) = read_value(&self.octets[self.pos..self.end]).ok_or(BadValue { place })?;
        let size = value.len();
        if is_constructed(value[0]) {
            let outer = self.end;
            self.pos = place + HEAD;
            self.end = place + size;
            let nested = Nested {
                window: self,
                outer,
            };
            nested.window.check_list(inner)?;
        }
        self.pos = place + size;
        Ok(())
    }

    // Passes over all values, or answers the first badly structured one.
    #[cycle(check_list_check_value)]
    fn check_list(&mut self, levels: u8) -> Result<(), BadValue>
        requires within { Within self.old }
        ensures kept { Kept self.old self.new }
        ensures checked { ListChecked levels self.old self.new result }
    {
        if self.pos == self.end {
            return Ok(());
        }
        self.check_value(levels)?;
        self.check_list(levels)
    }
}

// The place behind the value that stands at a place, for which `levels` of nesting are left; or the first badly structured
// value in it.
pub fn check_structure(octets: &[u8], place: usize, levels: u8) -> Result<usize, BadValue>
    ensures { StructureChecked levels place octets.now result }
{
    if place > octets.len() {
        return Err(BadValue { place });
    }
    let mut window = Window {
        octets,
        pos: place,
        end: octets.len(),
    };
    window.check_value(levels)?;
    Ok(window.pos)
}
