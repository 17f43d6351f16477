ghost use Rattle.std.specs.Prelude.{◌≤◌};

// What a word is made up of.
#[derive(Clone, Copy, Debug, PartialEq, Eq)]
pub struct Parts {
    // which time round the slots the word was written for
    pub cycle: usize,
    // whether an add may use the slot without asking for Head
    pub safe: bool,
    pub index: Option<usize>,
}

// How tickets and words are made up, for a number of places: the ring goes round twice as many slots.
#[derive(Clone, Copy, Debug, PartialEq, Eq)]
pub(crate) struct Layout {
    pub(crate) places: usize,
    ghost sized: { (1 ≤ places) × (places ≤ 64) },
}

impl Layout {
    ghost use Rattle.std.specs.Prelude.{◌≡◌, ◌*◌, ◌^◌, ◌<◌, ◌==◌};
    ghost use Rattle.scq_table.specs.Table as table;
    ghost use Rattle.scq.specs.Steps.{is_free, bit};
    ghost use Rattle.scq.specs.Parts.{parts};

    // How many slots there are.
    pub(crate) fn slots(self) -> usize
        ensures { result ≡ 2 * self.places }
    {
        2 * self.places
    }

    // Which time round the slots a ticket belongs to.
    pub(crate) fn cycle(self, ticket: usize) -> usize
        ensures { result ≡ table.cycle self.places ticket }
    {
        ticket / self.slots()
    }

    pub(crate) fn slot(self, ticket: usize) -> usize
        ensures { result ≡ table.slot self.places ticket }
    {
        ticket % self.slots()
    }

    pub(crate) fn word_cycle(self, word: usize) -> usize
        ensures { result ≡ table.word_cycle self.places word }
    {
        word / (4 * self.places)
    }

    pub(crate) fn is_safe(self, word: usize) -> bool
        ensures { result ≡ (table.safe self.places word == 1) }
    {
        word / self.slots() % 2 == 1
    }

    pub(crate) fn index(self, word: usize) -> usize
        ensures { result ≡ table.index self.places word }
    {
        word % self.slots()
    }

    // The index that says that no index is there.
    pub(crate) fn bottom(self) -> usize
        ensures { result ≡ table.bottom self.places }
    {
        self.slots() - 1
    }

    // The word of a cycle, a safe bit and an index.
    pub(crate) fn join(self, cycle: usize, safe: bool, index: usize) -> usize
        requires { (cycle < 2 ^ 40) × (index < 2 ^ 40) }
        ensures { result ≡ table.join self.places cycle (bit safe) index }
    {
        4 * self.places * cycle + self.slots() * usize::from(safe) + index
    }

    pub(crate) fn parts(self, word: usize) -> Parts
        ensures { result ≡ parts self.places word }
    {
        let index = self.index(word);
        Parts {
            cycle: self.word_cycle(word),
            safe: self.is_safe(word),
            index: if index == self.bottom() {
                None
            } else {
                Some(index)
            },
        }
    }

    // The highest Threshold.
    pub(crate) fn top(self) -> i64
        ensures { result ≡ table.top self.places }
    {
        (3 * self.places - 1) as i64
    }

    // Whether the word is empty and of a cycle before the ticket's.
    pub(crate) fn is_free(self, word: usize, ticket: usize) -> bool
        ensures { result ≡ is_free self.places word ticket }
    {
        self.word_cycle(word) < self.cycle(ticket) && self.index(word) == self.bottom()
    }

    // What a take writes over a word of an earlier cycle, so that no late add uses the ticket.
    pub(crate) fn spoilt(self, ticket: usize, word: usize) -> usize
        requires { (ticket < 2 ^ 40) × (word < 2 ^ 40) }
        ensures { result ≡ table.spoilt self.places ticket word }
    {
        let old = self.index(word);
        if old == self.bottom() {
            self.join(self.cycle(ticket), self.is_safe(word), old)
        } else {
            self.join(self.word_cycle(word), false, old)
        }
    }

    // The word at a slot of a new ring, with the indices below `filled` in cycle 1.
    pub(crate) fn new_word(self, filled: usize, slot: usize) -> usize
        requires { slot < 128 }
        ensures { result ≡ table.word_of_new self.places filled slot }
    {
        if slot < filled {
            self.join(1, true, slot)
        } else {
            self.join(0, true, self.bottom())
        }
    }
}
