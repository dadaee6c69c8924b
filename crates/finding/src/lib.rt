// Every finding has one form: a cause of any kind with the place where it was found.
//
// Proved here: a cause has the number that its definition gives it, a finding answers that number with its place, and a check
// passes where nothing was found.
// What the causes are is for the crates above to say: faults of a file, violations of the rules, stops of a run.
#![tactic(auto)]

ghost use Rattle.std.specs.Prelude.{◌≡◌, ℕ};
ghost use Rattle.finding.specs.Checks.{found, passes_unless};

/// A cause with the place where it was found: a name's, a string's or a node's number, or 0 for the file as a whole.
#[derive(Clone, Copy, PartialEq, Eq, Debug)]
pub struct Finding<C> {
    pub place: u32,
    pub cause: C,
}

/// A cause that is answered by a number.
pub trait Numbered {
    /// The number, by the definition that every contract uses.
    ghost number: { Self → ℕ };

    /// The number as a value.
    fn number_of(&self) -> u32
        ensures { result ≡ number self.now };
}

impl<C> Finding<C> {
    /// A cause found at a place.
    pub fn new(place: u32, cause: C) -> Finding<C>
        ensures { result ≡ record { place = place; cause = cause } }
    {
        Finding { place, cause }
    }
}

impl<C: Drop> Finding<C> {
    /// A check that a cause is found nowhere: it passes where there is no place, and else fails with the cause at that place.
    pub fn absent(cause: C, place: Option<u32>) -> Result<(), Finding<C>>
        ensures { result ≡ passes_unless (found cause place) }
    {
        match place {
            None => Ok(()),
            Some(place) => Err(Finding::new(place, cause)),
        }
    }
}

impl<C: Numbered> Finding<C> {
    /// The number and the place, as an answer gives them.
    pub fn answer(&self) -> (u32, u32)
        ensures number { result.0 ≡ C.Numbered.number self.now.cause }
        ensures place { result.1 ≡ self.now.place }
    {
        (self.cause.number_of(), self.place)
    }
}
