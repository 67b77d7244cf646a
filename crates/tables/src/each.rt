// Changing all items of a list by one rule.
ghost use Rattle.std.specs.Prelude.{◌≡◌, map};
ghost use Rattle.tables.specs.Closures.{Applies};

// Each item becomes what the rule makes of it.
pub(crate) fn change_each<T: Copy, F: Fn(T) -> T>(items: &mut [T], rule: F)
    requires { F.IsAlwaysCallable rule }
    ensures { (f : T → T) → Applies (F.post rule) f → items.new ≡ map f items.old }
{
    for item in items.iter_mut() {
        *item = rule(*item);
    }
}
