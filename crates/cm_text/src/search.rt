// Search by halving.
ghost use Rattle.std.specs.Prelude.{◌≡◌, ◌+◌, ◌-◌, ◌*◌, ◌^◌, ◌≤◌, Bool, true, false, length};
ghost use Rattle.std.specs.Fn.{ComputesKey};
ghost use Rattle.std.specs.List.Sorted.{IsPartitionedBy, IsPartitionPoint};

/// How many elements a test passes, where those that it passes come first. How often the test is asked is added to
/// `probes`: at most as often as the number of elements has binary digits, so 11 times for 1,024 of them, and never
/// for none.
pub fn seek<T, F: FnMut(&T) -> bool>(items: &[T], mut is_before: F, probes: &mut u64) -> usize
    requires { F.IsAlwaysCallable is_before }
    ensures bound { result ≤ length items.now }
    ensures parted { (test : T → Bool) → ComputesKey F.FnMut test is_before → IsPartitionedBy test items.now
        → IsPartitionPoint (λ item. test item ≡ true) (λ item. test item ≡ false) items.now result }
    ensures later { probes.old ≤ probes.new }
    ensures few { 2 ^ (probes.new - probes.old) ≤ 2 * length items.now + 1 }
{
    let mut start = 0;
    let mut size = items.len();
    while size > 0 {
        let half = size / 2;
        *probes = probes.saturating_add(1);
        if is_before(&items[start + half]) {
            start += half + 1;
            size -= half + 1;
        } else {
            size = half;
        }
    }
    start
}
