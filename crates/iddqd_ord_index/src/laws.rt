//! A law of the definitions that contracts cite. It runs nothing.
ghost use Rattle.iddqd_ord_index.specs.Digits.{DigitsAreLeast};

/// `digits n` is the least number k such that n is below 2 to the k.
pub fn digits_are_least()
    ensures { DigitsAreLeast }
{}
