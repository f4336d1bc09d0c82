// Counts that stay at their last value.
ghost use Rattle.std.specs.Prelude.{◌≡◌};
ghost use Rattle.cm_io.specs.Fault.{Rose, next_count};

// The count after one more. It stays at its last value once that is reached.
#[tactic(auto, unfolding(crate::specs::Fault::Rose))]
pub(crate) fn raised(count: u64) -> u64
    ensures next { result ≡ next_count count }
    ensures rose { Rose count result }
{
    count.saturating_add(1)
}
