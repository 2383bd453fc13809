// The calls that a form in memory is to fail.

ghost use Rattle.std.specs.Prelude.{◌≡◌};
ghost use Rattle.std.specs.Bool.{nat_eq};
ghost use Rattle.std.specs.List.{list_any};

/// Whether the call with this number is one of those that fail.
pub fn is_listed(fails: &[u32], call: u64) -> bool
    ensures { result ≡ list_any (nat_eq call) fails.now }
{
    fails.iter().any(|n| u64::from(*n) == call)
}
