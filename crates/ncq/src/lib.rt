// NCQ, the naive circular queue: a ring of indices whose stations make one memory operation a turn.

#![tactic(auto)]

ghost use Rattle.std.specs.Prelude.{◌≡◌, ◌<◌, ◌==◌, if◌then◌else◌, Ok, Err, nat_lt};
ghost use Rattle.ring.specs.declared.Refusal.TheVariants.{AtLimit};
ghost use Rattle.ring.specs.Tables.{TellsAlways};
ghost use Rattle.ncq_table.specs.Table as rows;
ghost use Rattle.ncq_table.specs.declared.Stage.TheVariants.{N2, N4, N7};
ghost use Rattle.ncq_table.specs.Table.{full_words, steps};
ghost use Rattle.ncq_table.specs.Stands.{Stands};
ghost use Rattle.ncq.specs.View.{view};
ghost use Rattle.ncq_table.specs.Within.{StepFits, Bounded};
ghost use Rattle.ncq.specs.Steps.{age};
ghost use Rattle.ncq_table.proofs.Meaning.{table_means};
ghost use Rattle.ncq_table.proofs.Bounds.{bounded_prop, keeps_bounds};

mod memory;

pub use memory::NcqMemory;
use ncq_table::Stage;
use ring::{Progress, Refusal, Sizes, compare_and_set};
use std::array;
use table::{Memory, Row, Table, going};

// A ring of indices.
pub type Ncq = Table<NcqMemory>;

impl Memory for NcqMemory {
    type Stage = Stage;

    ghost shown = { rows.Memory };

    ghost view = { view };

    ghost steps = { steps };

    ghost fits = { StepFits };

    ghost bounded = { Bounded };

    ghost bounded_prop = { bounded_prop };

    ghost stands = { Stands };

    ghost bounds = { keeps_bounds };

    ghost means = { table_means };

    // The next take has the first ticket of cycle 1, and so has the next add.
    fn empty(sizes: Sizes) -> NcqMemory {
        let first = sizes.places;
        NcqMemory {
            places: sizes.places,
            head: first,
            tail: first,
            words: [0; 64],
        }
    }

    // Every index is in cycle 0.
    fn full(sizes: Sizes) -> NcqMemory {
        let places = sizes.places;
        NcqMemory {
            places,
            head: 0,
            tail: places,
            words: words_of_all(places),
        }
    }

    fn places(&self) -> usize {
        self.places
    }

    fn slots(&self) -> usize {
        self.places
    }

    // No take has passed the word's ticket.
    fn is_at(&self, index: usize, slot: usize) -> bool {
        let word = self.words[slot];
        word % self.places == index && self.head <= self.places * self.cycle(word) + slot
    }

    fn idle() -> Stage {
        Stage::Idle
    }

    fn is_idle(stage: Stage) -> bool {
        stage == Stage::Idle
    }

    fn adding(index: usize) -> Stage {
        Stage::N1 { index }
    }

    fn taking() -> Stage {
        Stage::N6
    }

    fn is_adding(stage: Stage, index: usize) -> bool {
        match stage {
            Stage::N1 { index: added }
            | Stage::N2 { index: added, .. }
            | Stage::N3 { index: added, .. }
            | Stage::N4 { index: added, .. } => added == index,
            _ => false,
        }
    }

    // The step table: one memory operation, and where the station stands after it.
    #[rattlefmt::skip]
    fn row(&mut self, limit: usize, stage: &Stage) -> Row<Stage> {
        match *stage {
            Stage::Idle => Err(Refusal::NoCall),
            Stage::N1 { index } => {
                let ticket = ticket_at(self.tail, limit)?;
                going(Stage::N2 { index, ticket })
            }
            Stage::N2 { index, ticket } => self.load_to_add(index, ticket),
            Stage::N3 { index, ticket } => {
                compare_and_set(&mut self.tail, ticket, ticket + 1);
                going(Stage::N1 { index })
            }
            Stage::N4 { index, ticket, word } => self.write(index, ticket, word),
            Stage::N5 { ticket } => {
                compare_and_set(&mut self.tail, ticket, ticket + 1); // or another add has moved it
                Ok((Progress::Added, Stage::Idle))
            }
            Stage::N6 => {
                let ticket = ticket_at(self.head, limit)?;
                going(Stage::N7 { ticket })
            }
            Stage::N7 { ticket } => self.load_to_take(ticket),
            Stage::N8 { ticket, word } => {
                if !compare_and_set(&mut self.head, ticket, ticket + 1) {
                    return going(Stage::N6);
                }
                Ok((Progress::Taken(Some(word % self.places)), Stage::Idle))
            }
        }
    }
}

// The ticket that the counter stands at. At the limit there is none.
fn ticket_at(counter: usize, limit: usize) -> Result<usize, Refusal>
    ensures { result ≡ (if counter == limit then Err AtLimit else Ok counter) }
{
    if counter == limit {
        return Err(Refusal::AtLimit);
    }
    Ok(counter)
}

// The words of a ring that holds every index: index j of cycle 0 at slot j.
fn words_of_all(places: usize) -> [usize; 64]
    ensures { result ≡ full_words places }
{
    array::from_fn(
        |slot| -> usize
            ensures { result ≡ (if nat_lt slot places then slot else 0) }
        { if slot < places { slot } else { 0 } },
    )
}

impl NcqMemory {
    // Which time round the slots a ticket or a word belongs to.
    fn cycle(&self, number: usize) -> usize
        ensures { result ≡ rows.cycle self.now.places number }
    {
        number / self.places
    }

    // The word at the ticket's slot.
    fn word_at(&self, ticket: usize) -> usize
        ensures { result ≡ rows.word (view self.now) ticket }
    {
        self.words[ticket % self.places]
    }

    // How many cycles before the ticket's the word was written, if it was not after it.
    fn age(&self, word: usize, ticket: usize) -> Option<usize>
        ensures { result ≡ age self.now.places word ticket }
    {
        self.cycle(ticket).checked_sub(self.cycle(word))
    }

    // N2: loads the word at the ticket's slot.
    fn load_to_add(&self, index: usize, ticket: usize) -> Row<Stage>
        ensures { TellsAlways steps (view self.now) (N2 index ticket) result (view self.now) }
    {
        let word = self.word_at(ticket);
        match self.age(word, ticket) {
            Some(0) => going(Stage::N3 { index, ticket }),
            Some(1) => going(Stage::N4 {
                index,
                ticket,
                word,
            }),
            _ => going(Stage::N1 { index }),
        }
    }

    // N4: writes the pair over the word that N2 loaded, if it is still there.
    fn write(&mut self, index: usize, ticket: usize, word: usize) -> Row<Stage>
        requires { (index < self.old.places) × (ticket < 999999999) }
        ensures { TellsAlways steps (view self.old) (N4 index ticket word) result (view self.new) }
    {
        let new = self.places * self.cycle(ticket) + index;
        if compare_and_set(&mut self.words[ticket % self.places], word, new) {
            going(Stage::N5 { ticket })
        } else {
            going(Stage::N1 { index })
        }
    }

    // N7: loads the word at the ticket's slot.
    fn load_to_take(&self, ticket: usize) -> Row<Stage>
        ensures { TellsAlways steps (view self.now) (N7 ticket) result (view self.now) }
    {
        let word = self.word_at(ticket);
        match self.age(word, ticket) {
            Some(0) => going(Stage::N8 { ticket, word }),
            Some(1) => Ok((Progress::Taken(None), Stage::Idle)),
            _ => going(Stage::N6),
        }
    }
}
