// SCQ, the scalable circular queue: a ring of indices whose stations make one memory operation a turn.

#![tactic(auto)]

ghost use Rattle.std.specs.Prelude.{◌≡◌, ◌*◌, ◌^◌, ◌<◌, ◌≤◌, negsuc, ◌≤ℤ◌, if◌then◌else◌, Some, None, nat_lt, slice_index};
ghost use Rattle.ring.specs.Tables.{TellsAlways};
ghost use Rattle.scq_table.specs.Table as table_specs;
ghost use Rattle.scq_table.specs.Table.{steps, new_words};
ghost use Rattle.scq_table.specs.declared.Stage.TheVariants.{A2, A4, T3, T4, T5, T7, T11};
ghost use Rattle.scq_table.specs.Stands.{Stands};
ghost use Rattle.scq_table.specs.Within.{StepFits, Bounded};
ghost use Rattle.scq.specs.Counters.{counters_of, ThresholdWithin};
ghost use Rattle.scq.specs.Parts.{parts};
ghost use Rattle.scq.specs.Steps.{ticket_taken};
ghost use Rattle.scq.specs.View.{view};
ghost use Rattle.scq_table.proofs.Meaning.{table_means};
ghost use Rattle.scq_table.proofs.Bounds.{bounded_prop, keeps_bounds};

mod layout;
mod memory;

use layout::Layout;
pub use layout::Parts;
pub use memory::ScqMemory;
use ring::{Progress, Refusal, Ring, Sizes, compare_and_set};
use scq_table::Stage;
use std::array;
use std::cmp::Ordering;
use table::{Memory, Row, Table, going};

// A ring of indices.
pub type Scq = Table<ScqMemory>;

// The counters that the stations share.
#[derive(Clone, Copy, Debug, PartialEq, Eq)]
pub struct Counters {
    pub head: usize,
    pub tail: usize,
    pub threshold: i64,
}

impl Counters {
    // The counters of a ring.
    pub fn of(ring: &Scq) -> Counters
        ensures exact { result ≡ counters_of (⟦<Scq as Ring>⟧.view ring.now) }
        ensures within { ThresholdWithin (⟦<Scq as Ring>⟧.view ring.now) result.threshold }
    {
        let memory = ring.memory();
        Counters {
            head: memory.head,
            tail: memory.tail,
            threshold: memory.threshold,
        }
    }
}

impl Memory for ScqMemory {
    type Stage = Stage;

    ghost shown = { table_specs.Memory };

    ghost view = { view };

    ghost steps = { steps };

    ghost fits = { StepFits };

    ghost bounded = { Bounded };

    ghost bounded_prop = { bounded_prop };

    ghost stands = { Stands };

    ghost bounds = { keeps_bounds };

    ghost means = { table_means };

    // The next take has the first ticket of cycle 1, and so has the next add.
    fn empty(sizes: Sizes) -> ScqMemory {
        let layout = Layout {
            places: sizes.places,
        };
        ScqMemory {
            layout,
            head: layout.slots(),
            tail: layout.slots(),
            threshold: -1,
            words: new_words(layout, 0),
        }
    }

    // Every index is in cycle 1.
    fn full(sizes: Sizes) -> ScqMemory {
        let places = sizes.places;
        let layout = Layout { places };
        ScqMemory {
            layout,
            head: layout.slots(),
            tail: 3 * places,
            threshold: layout.top(),
            words: new_words(layout, places),
        }
    }

    fn places(&self) -> usize {
        self.layout.places
    }

    fn slots(&self) -> usize {
        self.layout.slots()
    }

    fn is_at(&self, index: usize, slot: usize) -> bool {
        self.layout.index(self.words[slot]) == index
    }

    fn idle() -> Stage {
        Stage::Idle
    }

    fn is_idle(stage: Stage) -> bool {
        stage == Stage::Idle
    }

    fn adding(index: usize) -> Stage {
        Stage::A1 { index }
    }

    fn taking() -> Stage {
        Stage::T1
    }

    fn is_adding(stage: Stage, index: usize) -> bool {
        match stage {
            Stage::A1 { index: added }
            | Stage::A2 { index: added, .. }
            | Stage::A3 { index: added, .. }
            | Stage::A4 { index: added, .. } => added == index,
            _ => false,
        }
    }

    // The step table: one memory operation, and where the station stands after it.
    #[rattlefmt::skip]
    fn row(&mut self, limit: usize, stage: &Stage) -> Row<Stage> {
        match *stage {
            Stage::Idle => Err(Refusal::NoCall),
            Stage::A1 { index } => {
                let ticket = take_ticket(&mut self.tail, limit)?;
                going(Stage::A2 { index, ticket })
            }
            Stage::A2 { index, ticket } => self.load_to_add(index, ticket),
            Stage::A3 { index, ticket, word } if self.head <= ticket => going(Stage::A4 { index, ticket, word }),
            Stage::A3 { index, .. } => going(Stage::A1 { index }),
            Stage::A4 { index, ticket, word } => self.write(index, ticket, word),
            Stage::A5 { .. } if self.threshold == self.layout.top() => Ok((Progress::Added, Stage::Idle)),
            Stage::A5 { ticket } => going(Stage::A6 { ticket }),
            Stage::A6 { .. } => {
                self.threshold = self.layout.top();
                Ok((Progress::Added, Stage::Idle))
            }
            Stage::T1 if self.threshold < 0 => Ok((Progress::Taken(None), Stage::Idle)),
            Stage::T1 => going(Stage::T2),
            Stage::T2 => {
                let ticket = take_ticket(&mut self.head, limit)?;
                going(Stage::T3 { ticket })
            }
            Stage::T3 { ticket } => self.load_to_take(ticket),
            Stage::T4 { ticket, word } => self.empty_word(ticket, word),
            Stage::T5 { ticket, word } => self.spoil_word(ticket, word),
            Stage::T6 { ticket } if self.tail <= ticket + 1 => going(Stage::T7 { ticket, tail: self.tail, head: ticket + 1 }),
            Stage::T6 { ticket } => going(Stage::T11 { ticket }),
            Stage::T7 { ticket, tail, head } => self.move_tail(ticket, tail, head),
            Stage::T8 { ticket } => going(Stage::T9 { ticket, head: self.head }),
            Stage::T9 { ticket, head } if self.tail >= head => going(Stage::T10 { ticket }),
            Stage::T9 { ticket, head } => going(Stage::T7 { ticket, tail: self.tail, head }),
            Stage::T10 { .. } => {
                self.threshold -= 1;
                Ok((Progress::Taken(None), Stage::Idle))
            }
            Stage::T11 { ticket } => self.lower_threshold(ticket),
        }
    }
}

// Fetch-and-add: the counter's old value is the ticket. At the limit there is none.
fn take_ticket(counter: &mut usize, limit: usize) -> Result<usize, Refusal>
    requires { counter.old ≤ 999999999 }
    ensures { (result, counter.new) ≡ ticket_taken counter.old limit }
{
    if *counter == limit {
        return Err(Refusal::AtLimit);
    }
    let ticket = *counter;
    *counter += 1;
    Ok(ticket)
}

// The words of a new ring, with the indices below `filled` in cycle 1.
fn new_words(layout: Layout, filled: usize) -> [usize; 128]
    ensures { result ≡ new_words layout.places filled }
{
    array::from_fn(|slot| layout.new_word(filled, slot))
}

impl ScqMemory {
    // The word at the slot, if there is such a slot.
    pub fn word(&self, slot: usize) -> Option<usize>
        ensures { result ≡ (if nat_lt slot (2 * (view self.now).places) then Some (slice_index (view self.now).words slot) else None) }
    {
        self.words[..self.layout.slots()].get(slot).copied()
    }

    // The word at the ticket's slot.
    pub fn word_at(&self, ticket: usize) -> usize
        ensures { result ≡ table_specs.word (view self.now) ticket }
    {
        self.words[self.layout.slot(ticket)]
    }

    // What a word of this ring is made up of.
    pub fn parts(&self, word: usize) -> Parts
        ensures { result ≡ parts (view self.now).places word }
    {
        self.layout.parts(word)
    }

    // A2: loads the word at the ticket's slot.
    fn load_to_add(&self, index: usize, ticket: usize) -> Row<Stage>
        ensures { TellsAlways steps (view self.now) (A2 index ticket) result (view self.now) }
    {
        let word = self.word_at(ticket);
        if !self.layout.is_free(word, ticket) {
            going(Stage::A1 { index })
        } else if self.layout.is_safe(word) {
            going(Stage::A4 {
                index,
                ticket,
                word,
            })
        } else {
            going(Stage::A3 {
                index,
                ticket,
                word,
            })
        }
    }

    // A4: writes the pair over the word that A2 loaded, if it is still there.
    fn write(&mut self, index: usize, ticket: usize, word: usize) -> Row<Stage>
        requires { (index < self.old.layout.places) × (ticket < 999999999) }
        ensures { TellsAlways steps (view self.old) (A4 index ticket word) result (view self.new) }
    {
        let layout = self.layout;
        let new = layout.join(layout.cycle(ticket), true, index);
        if compare_and_set(&mut self.words[layout.slot(ticket)], word, new) {
            going(Stage::A5 { ticket })
        } else {
            going(Stage::A2 { index, ticket })
        }
    }

    // T3: loads the word at the ticket's slot.
    fn load_to_take(&self, ticket: usize) -> Row<Stage>
        ensures { TellsAlways steps (view self.now) (T3 ticket) result (view self.now) }
    {
        let word = self.word_at(ticket);
        match self.layout.word_cycle(word).cmp(&self.layout.cycle(ticket)) {
            Ordering::Equal => going(Stage::T4 { ticket, word }),
            Ordering::Less => going(Stage::T5 { ticket, word }),
            Ordering::Greater => going(Stage::T6 { ticket }),
        }
    }

    // T4: takes the index out of the word, and leaves its cycle and safe bit.
    fn empty_word(&mut self, ticket: usize, word: usize) -> Row<Stage>
        ensures { TellsAlways steps (view self.old) (T4 ticket word) result (view self.new) }
    {
        let layout = self.layout;
        self.words[layout.slot(ticket)] |= layout.bottom();
        Ok((Progress::Taken(Some(layout.index(word))), Stage::Idle))
    }

    // T5: spoils the word that T3 loaded, if it is still there.
    fn spoil_word(&mut self, ticket: usize, word: usize) -> Row<Stage>
        requires { (ticket < 2 ^ 40) × (word < 2 ^ 40) }
        ensures { TellsAlways steps (view self.old) (T5 ticket word) result (view self.new) }
    {
        let layout = self.layout;
        let new = layout.spoilt(ticket, word);
        if compare_and_set(&mut self.words[layout.slot(ticket)], word, new) {
            going(Stage::T6 { ticket })
        } else {
            going(Stage::T3 { ticket })
        }
    }

    // T7: moves Tail up to Head, if it has not moved.
    fn move_tail(&mut self, ticket: usize, tail: usize, head: usize) -> Row<Stage>
        ensures { TellsAlways steps (view self.old) (T7 ticket tail head) result (view self.new) }
    {
        if compare_and_set(&mut self.tail, tail, head) {
            going(Stage::T10 { ticket })
        } else {
            going(Stage::T8 { ticket })
        }
    }

    // T11: lowers Threshold, and ends where it was used up.
    fn lower_threshold(&mut self, ticket: usize) -> Row<Stage>
        requires { negsuc 63 ≤ℤ self.old.threshold }
        ensures { TellsAlways steps (view self.old) (T11 ticket) result (view self.new) }
    {
        let old = self.threshold;
        self.threshold -= 1;
        if old <= 0 {
            Ok((Progress::Taken(None), Stage::Idle))
        } else {
            going(Stage::T2)
        }
    }
}
