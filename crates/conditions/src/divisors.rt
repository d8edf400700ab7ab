// The divisors of a reduction, by the starts of the polynomials.
ghost use Rattle.std.specs.Prelude.{◌≡◌};
ghost use Rattle.conditions.specs.Divisors.{divisors_good};

// Whether none of the polynomials from 1 on is zero.
pub fn divisors_good(starts: &[usize]) -> bool
    ensures { result ≡ divisors_good starts.now }
{
    starts.is_empty() || starts[1..].is_sorted_by(|from, to| from < to)
}
