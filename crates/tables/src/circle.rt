// A circle of ids, from 0 to 127: the next after the last given, passing over those in use.
ghost use Rattle.std.specs.Prelude.{◌≡◌, ◌+◌, ◌-◌, ℕ, Bool, not};
ghost use Rattle.std.specs.List.{find, range_with_len};
ghost use Rattle.tables.specs.Circles.{next_id};
ghost use Rattle.tables.specs.Closures.{Tells};

// The ids that there are.
const FIRST_ID: u8 = 0;

const LAST_ID: u8 = 127;

// The id that was given last; before the first, 127.
#[derive(Clone, Copy, PartialEq, Eq, Debug)]
pub struct Circle {
    pub last: u8,
}

// The first id from one to another that is not in use.
fn first_unused<F: Fn(u8) -> bool>(from: u8, to: u8, used: &F) -> Option<u8>
    requires { F.IsAlwaysCallable used.now }
    ensures { (is_used : ℕ → Bool) → Tells (F.post used.now) is_used → result ≡ find (λ i. not (is_used i)) (range_with_len from (to + 1 - from)) }
{
    for id in from..=to {
        if !used(id) {
            return Some(id);
        }
    }
    None
}

impl Circle {
    // Nothing was given; the first id will be 0.
    pub fn new() -> Circle
        ensures { result.last ≡ 127 }
    {
        Circle { last: LAST_ID }
    }

    // The id that comes next; the last again, where all are in use.
    pub(crate) fn next<F: Fn(u8) -> bool>(self, used: F) -> u8
        requires { F.IsAlwaysCallable used }
        ensures { (is_used : ℕ → Bool) → Tells (F.post used) is_used → result ≡ next_id self.last is_used }
    {
        let Circle { last } = self;
        first_unused(last.saturating_add(1), LAST_ID, &used)
            .or_else(|| first_unused(FIRST_ID, last, &used))
            .unwrap_or(last)
    }
}

impl Default for Circle {
    ghost is_default = { λ circle. circle.last ≡ 127 };

    fn default() -> Circle {
        Circle::new()
    }
}
