// Two runs of bytes compared from the front.
#![tactic(auto)]

ghost use Rattle.std.specs.Prelude.{◌≡◌, ◌+◌, ◌≤◌, length, take, drop};
ghost use Rattle.model.specs.Order.{first_difference};

// The first place where the n bytes of a from index `at` on differ from the first n of b, or n. For bytes of two policies it is a state.
pub fn first_difference(a: &[u8], at: usize, b: &[u8], n: usize) -> usize
    requires { (at + n ≤ length a.now) × (n ≤ length b.now) }
    ensures { (result ≡ first_difference (take n (drop at a.now)) (take n b.now)) × (result ≤ n) }
{
    a[at..at + n]
        .iter()
        .zip(&b[..n])
        .position(|(x, y)| x != y)
        .unwrap_or(n)
}
