// The sum of a few small numbers.
ghost use Rattle.std.specs.Prelude.{◌≡◌, ◌≤◌, length};
ghost use Rattle.queues.specs.Sums.{sum};

pub(crate) fn total(counts: &[u8]) -> usize
    requires { length counts.now ≤ 32 }
    ensures { result ≡ sum counts.now }
{
    counts.iter().map(|count| usize::from(*count)).sum()
}
