// The order of a record type.
ghost use Rattle.std.specs.Prelude.{◌≡◌, Bool, true, false};

// A type of records of which some come before others; those of which neither comes before the other are equals.
pub trait Ordered {
    // `before x y`: x comes before y
    ghost before: { Self → Self → Bool };

    // Whether this record comes before the other.
    fn precedes(&self, other: &Self) -> bool
        ensures { result ≡ before self.now other.now };

    // of two records at most one comes before the other
    ghost asym: { (x y : Self) → before x y ≡ true → before y x ≡ false };

    // where y is not before x, and z not before y, z is not before x
    ghost behind: { (x y z : Self) → before y x ≡ false → before z y ≡ false → before z x ≡ false };
}
