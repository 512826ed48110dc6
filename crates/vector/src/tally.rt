ghost use Rattle.std.specs.Prelude.{◌≡◌, ◌++◌, Some, codes, decimal};
ghost use Rattle.vector.specs.Counts.{with_case, with_malformed};

use std::fmt;

// What became of the lines. Only a well-formed case is tried.
#[derive(Clone, Copy, Default)]
pub struct Tally {
    tried: u64,
    differ: u64,
    malformed: u64,
}

impl Tally {
    pub fn new() -> Tally
        ensures tried { result.tried ≡ 0 }
        ensures differ { result.differ ≡ 0 }
        ensures malformed { result.malformed ≡ 0 }
    {
        Tally::default()
    }

    pub fn count_case(&mut self, agreed: bool)
        ensures { self.new ≡ with_case agreed self.old }
    {
        self.tried = self.tried.saturating_add(1);
        if !agreed {
            self.differ = self.differ.saturating_add(1);
        }
    }

    pub fn count_malformed(&mut self)
        ensures { self.new ≡ with_malformed self.old }
    {
        self.malformed = self.malformed.saturating_add(1);
    }
}

impl fmt::Display for Tally {
    ghost output = { λ t. Some (decimal t.tried ++ (codes " tried, " ++ (decimal t.differ ++ (codes " differ, " ++ (decimal t.malformed ++ codes " malformed"))))) };

    fn fmt<W: fmt::Write>(&self, f: &mut fmt::Formatter<W>) -> fmt::Result {
        let tried = self.tried;
        let differ = self.differ;
        let malformed = self.malformed;
        write!(f, "{tried} tried, {differ} differ, {malformed} malformed")
    }
}
