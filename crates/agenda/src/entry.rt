// What an entry of an agenda must be.
ghost use Rattle.std.specs.Prelude.{◌≡◌, ℕ, Bool, true, false, not, List, ◌≢◌};

pub trait Entry: Copy {
    // The numbers by which two entries are compared.
    ghost compared: { Self → List ℕ };

    ghost before: { Self → Self → Bool };

    fn goes_before(&self, other: &Self) -> bool
        ensures { result ≡ before self.now other.now };

    // Where the compared numbers agree, neither goes before the other.
    ghost agree: { (x y : Self) → compared x ≡ compared y → before x y ≡ false };

    // Where they differ, exactly one does.
    ghost one: { (x y : Self) → (compared x ≢ compared y) → before x y ≡ not (before y x) };

    // Going before passes on.
    ghost transitive: { (x y z : Self) → before x y ≡ true → before y z ≡ true → before x z ≡ true };
}
