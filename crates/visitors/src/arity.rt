// How many parts of one sort a row may have.
ghost use Rattle.std.specs.Prelude.{◌≡◌};
ghost use Rattle.visitors.specs.Arities.{allows};

#[derive(Clone, Copy, Debug, PartialEq, Eq)]
pub enum Arity {
    Exactly(u32),
    AtLeast(u32),
    Between(u32, u32),
    // From 1 to as many as there are successors: a switch tests one value against its cases, and
    // a default has no test of its own.
    UpToSuccessors,
}

impl Arity {
    // Whether a row with so many successors may have so many parts.
    pub fn allows(self, successors: u32, parts: u32) -> bool
        ensures { result ≡ allows self successors parts }
    {
        match self {
            Arity::Exactly(n) => parts == n,
            Arity::AtLeast(n) => n <= parts,
            Arity::Between(least, most) => least <= parts && parts <= most,
            Arity::UpToSuccessors => 1 <= parts && parts <= successors,
        }
    }
}
