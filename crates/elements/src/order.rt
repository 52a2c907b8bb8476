// The one question that orders elements.
ghost use Rattle.std.specs.Prelude.{◌≡◌, Bool};
ghost use Rattle.elements.specs.Order.{Laws};

// A type whose values are ordered by one question: is this one no later than that one?
// It is not `Ord`: two orders that differ may be tied, and `Ord` asks that only equal values compare as equal.
pub trait Ordered {
    ghost le: { Self → Self → Bool };

    fn no_later(&self, other: &Self) -> bool
        ensures { result ≡ le self.now other.now };

    ghost laws: { Laws le };
}
