// Powers, by multiplication.
#![tactic(auto)]

ghost use Rattle.std.specs.Prelude.{◌≡◌, ◌/◌, ◌%◌, ◌^◌, ◌≤◌};
ghost use Rattle.model.specs.Calls.{power_of};

// The lookup of a scale (document 01): d^e for d from 1 to 100 and e from 0 to 8, else 0.
pub fn power(d: usize, e: usize) -> u64
    ensures { result ≡ power_of d e }
{
    if 1 <= d && d <= 100 && e <= 8 {
        raised(d, e)
    } else {
        0
    }
}

// x where k is one of the parts of e, which are powers of 2, else 1.
fn factor(x: u64, e: usize, k: usize) -> u64
    requires { 1 ≤ k }
    ensures { result ≡ x ^ (e / k % 2) }
{
    if (e / k) % 2 == 1 { x } else { 1 }
}

// d^e by squares: for passes over states, where d and e are known to be in range, and for the lookup.
pub fn raised(d: usize, e: usize) -> u64
    requires { (d ≤ 100) × (e ≤ 8) }
    ensures { result ≡ d ^ e }
{
    let one = d as u64;
    let low = factor(one, e, 1);
    if e < 2 {
        return low;
    }
    let two = one * one;
    let four = two * two;
    if e == 8 {
        return four * four;
    }
    low * factor(two, e, 2) * factor(four, e, 4)
}
