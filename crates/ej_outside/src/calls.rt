//! The calls of an object in memory, numbered from 0, and which of them are to fail.

ghost use Rattle.std.specs.Prelude.{◌≡◌};
ghost use Rattle.ej_outside.specs.Calls.{is_listed};
ghost use Rattle.ej_outside.specs.Counts.{raised};

/// The numbers of the calls that are to fail, and the number of the next call.
#[derive(Debug, Drop)]
pub(crate) struct Calls {
    pub(crate) fails: Vec<u64>,
    pub(crate) next: u64,
}

impl Calls {
    /// Makes the next call, and answers whether it is to fail.
    pub(crate) fn fails_next(&mut self) -> bool
        ensures listed { result ≡ is_listed self.old.fails.items self.old.next }
        ensures after { self.new ≡ record self.old { next = raised self.old.next } }
    {
        let listed = self.fails.contains(&self.next);
        self.next = one_more(self.next);
        listed
    }
}

/// One more than the count, which stays at 2^64-1.
pub(crate) fn one_more(count: u64) -> u64
    ensures { result ≡ raised count }
{
    if count == u64::MAX { count } else { count + 1 }
}
