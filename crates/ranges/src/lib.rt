// Internal: pub only for our own crates. Whether lent numbers are priorities.
#![tactic(auto)]

ghost use Rattle.std.specs.Prelude.{◌≡◌};
ghost use Rattle.rules.specs.Priorities.{in_range};
ghost use Rattle.rules.specs.Lists.{all_of};

use rules::Priority;

// All numbers of a list are priorities in range.
pub fn all_in_range(values: &[u8]) -> bool
    ensures { result ≡ all_of in_range values.now }
{
    values.iter().all(|&v| Priority(v).in_range())
}
