//! A counter of the operations on shared words, for contracts alone.
ghost use Rattle.std.specs.Prelude.{◌≡◌, ℕ, ◌+◌, ◌<◌};

use std::marker::Model;
use std::sync::ledger::{Blank, Book, Ledger, Share};

/// How many operations on shared words were done since it was opened.
///
/// It takes no memory and does nothing as the program runs. Contracts see it as the number.
#[derive(Drop)]
pub struct Steps<L: Ledger> {
    total: Book<L>,
    share: Share<L>,
}

impl<L: Ledger> Model for Steps<L> {
    ghost use Rattle.std.specs.Prelude.{ℕ, ◌<◌};

    ghost Value = { ℕ };

    ghost view = { λ a. a.total.total };

    ghost invariant = { λ a. 0 < a.share.parts };
}

impl<L: Ledger> Steps<L> {
    /// A counter at 0.
    pub fn open(blank: Blank) -> Steps<L>
        requires name { blank.name ≡ L.name }
        requires parts { blank.parts ≡ L.parts }
        requires some { 0 < blank.parts }
        ensures { result ≡ 0 }
    {
        let (total, share) = blank.open::<L>();
        Steps { total, share }
    }

    /// Counts one operation.
    pub fn tick(&mut self)
        ensures { self.new ≡ self.old + 1 }
    {
        let Steps { total, share } = self;
        total.add(share, 1);
    }
}

#[cfg(test)]
mod tests {
    use super::*;
    use std::marker::Brand;

    fn two_ticks<L: Ledger>(blank: Blank)
        requires name { blank.name ≡ L.name }
        requires parts { blank.parts ≡ L.parts }
        requires some { 0 < blank.parts }
    {
        let mut steps = Steps::<L>::open(blank);
        steps.tick();
        steps.tick();
    }

    #[test]
    fn counts() {
        two_ticks::<Brand>(Blank::new(1));
    }
}
