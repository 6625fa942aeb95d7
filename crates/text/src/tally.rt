// Comparisons, counted.
ghost use Rattle.std.specs.Prelude.{◌≡◌};
ghost use Rattle.text.specs.Tally.{none_tallied, tallied};

use std::fmt;

// How many were compared, and how many of them differ. Each stops at the largest u64.
#[derive(Clone, Copy)]
pub struct Tally {
    pub compared: u64,
    pub differ: u64,
}

impl Tally {
    #[tactic(auto, unfolding(crate::specs::Tally::none_tallied))]
    pub fn none() -> Tally
        ensures { result ≡ none_tallied }
    {
        Tally {
            compared: 0,
            differ: 0,
        }
    }

    // One more.
    #[tactic(auto, unfolding(crate::specs::Tally::one_more, crate::specs::Tally::tallied))]
    pub fn with(self, agrees: bool) -> Tally
        ensures { result ≡ tallied self agrees }
    {
        Tally {
            compared: self.compared.saturating_add(1),
            differ: self.differ.saturating_add(u64::from(!agrees)),
        }
    }
}

// How many were compared, what they are, and how many differ.
#[derive(Clone, Copy)]
pub struct Summary<'a> {
    pub tally: Tally,
    pub what: &'a str,
}

impl<'a> fmt::Display for Summary<'a> {
    fn fmt<W: fmt::Write>(&self, f: &mut fmt::Formatter<W>) -> fmt::Result {
        write!(
            f,
            "{} {}, {} differ",
            self.tally.compared, self.what, self.tally.differ
        )
    }
}

// Whether what was compared agrees, at the start of a line.
#[derive(Clone, Copy)]
pub struct Verdict(pub bool);

impl fmt::Display for Verdict {
    fn fmt<W: fmt::Write>(&self, f: &mut fmt::Formatter<W>) -> fmt::Result {
        f.write_str(if self.0 { "agrees  " } else { "DIFFERS " })
    }
}
