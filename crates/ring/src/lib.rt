// What every ring of indices is: its answers, its refusals and its five calls.
//
// A ring keeps the indices 0 to n-1 in order for k stations. A station is whoever makes calls: it has
// a number below k, and at most one call in progress. A call, to add an index or to take one, is
// begun and then carried out by turns. A turn makes one memory operation of its station's call.
// What a ring stands for is said in specs/Model.antt and specs/Meaning.antt.

#![tactic(auto)]

ghost use Rattle.std.specs.Prelude.{◌≡◌, ℕ, Result};
ghost use Rattle.ring.specs.Numbers.{answer_number, refusal_number, answer_of};
ghost use Rattle.ring.specs.declared.Refusal.{Refusal};
ghost use Rattle.ring.specs.declared.Progress.{Progress};
ghost use Rattle.ring.specs.Model.{Model};
ghost use Rattle.ring.specs.Meaning.{viewed, Kept, MadeEmpty, MadeFull, AddBegun, TakeBegun, Turned, HasMeaning};
ghost use Rattle.ring.specs.Runs.{RunsStand};
ghost use Rattle.ring.specs.Cells.{swapped};

mod sizes;

pub use sizes::Sizes;
use thiserror::Error;

// What a caller is told of an accepted call, by its number.
#[derive(Clone, Copy, Debug, PartialEq, Eq)]
pub enum Answer {
    // the call goes on
    Going = 100,
    // the put is done
    PutDone = 101,
    // the put found no free place
    PutFull = 102,
    // the take has ended with a record
    TakeDone = 103,
    // the take found nothing
    TakeEmpty = 104,
}

// Why a call was refused, by its number. A refused call changes nothing.
#[derive(Clone, Copy, Debug, PartialEq, Eq, Error)]
#[error("the call is refused with {}", self.number())]
pub enum Refusal {
    // the number of places is not a power of two from 1 to 64
    Places = 1,
    // there is no station, or there are more than places
    Stations = 2,
    // the ticket limit is under four times the places, or over 999,999,999
    Limit = 3,
    // the rack, the caller's memory of records, has not exactly one for each place and each station
    Rack = 4,
    // there is no such station
    NoStation = 5,
    // a begin while the station has a call in progress
    Busy = 6,
    // a turn while the station has no call in progress
    NoCall = 7,
    // the turn would take a ticket, and the counter stands at the limit
    AtLimit = 8,
    // there is no such index
    NoIndex = 9,
    // the index is not outside the ring
    NotOutside = 10,
}

// What a ring tells of an accepted begin or turn. A take ends with an index or with none; none is
// an absence, never index 0.
#[derive(Clone, Copy, Debug, PartialEq, Eq)]
pub enum Progress {
    Going,
    Added,
    Taken(Option<usize>),
}

impl Answer {
    pub fn number(self) -> u32
        ensures { result ≡ answer_number self }
    {
        self as u32
    }
}

impl Refusal {
    pub fn number(self) -> u32
        ensures { result ≡ refusal_number self }
    {
        self as u32
    }
}

// The answer of a ring that is used by itself: an add counts as a put.
impl From<Progress> for Answer {
    ghost from_gives = { λ progress answer. answer ≡ answer_of progress };

    fn from(progress: Progress) -> Answer {
        match progress {
            Progress::Going => Answer::Going,
            Progress::Added => Answer::PutDone,
            Progress::Taken(Some(_)) => Answer::TakeDone,
            Progress::Taken(None) => Answer::TakeEmpty,
        }
    }
}

// Sets the cell to `new` if it holds `old`, and tells whether it did.
pub fn compare_and_set(cell: &mut usize, old: usize, new: usize) -> bool
    ensures { (result, cell.new) ≡ swapped cell.old old new }
{
    if *cell == old {
        *cell = new;
        return true;
    }
    false
}

// A ring of the indices below `places` for `stations` stations.
//
// Each call has three clauses. `outcome` is exact: the answer and the ring's whole state after it.
// `refused` says that a refused call leaves the ring as it was. `meaning` says what the call does
// to the model that the ring stands for.
pub trait Ring: Sized + Drop {
    // the ring's own state, as a type of the specification, and how a ring shows it
    ghost state: { Type 0 };

    ghost view: { Self → state };

    // the exact outcome of each call: of the two makes, of begin-add and begin-take, and of a turn
    ghost empty: { ℕ → ℕ → ℕ → Result state Refusal };

    ghost full: { ℕ → ℕ → ℕ → Result state Refusal };

    ghost adds: { state → ℕ → ℕ → Result Progress Refusal × state };

    ghost takes: { state → ℕ → Result Progress Refusal × state };

    ghost turns: { state → ℕ → Result Progress Refusal × state };

    // the models that a state stands for
    ghost stands: { state → Model → Type 0 };

    // A ring with no pair. (It takes three numbers and not `Sizes`, here and below, since it has to refuse them.)
    fn make_empty(places: usize, stations: usize, limit: usize) -> Result<Self, Refusal>
        ensures outcome { viewed view result ≡ empty places stations limit }
        ensures meaning { MadeEmpty stands places stations limit (viewed view result) };

    // A ring with a pair for each index.
    fn make_full(places: usize, stations: usize, limit: usize) -> Result<Self, Refusal>
        ensures outcome { viewed view result ≡ full places stations limit }
        ensures meaning { MadeFull stands places stations limit (viewed view result) };

    // Station begins to add the index; no memory operation.
    fn begin_add(&mut self, station: usize, index: usize) -> Result<Progress, Refusal>
        ensures outcome { (result, view self.new) ≡ adds (view self.old) station index }
        ensures refused { Kept (view self.old) (result, view self.new) }
        ensures meaning { (m : Model) → stands (view self.old) m → AddBegun stands m station index (result, view self.new) };

    // Station begins to take an index; no memory operation.
    fn begin_take(&mut self, station: usize) -> Result<Progress, Refusal>
        ensures outcome { (result, view self.new) ≡ takes (view self.old) station }
        ensures refused { Kept (view self.old) (result, view self.new) }
        ensures meaning { (m : Model) → stands (view self.old) m → TakeBegun stands m station (result, view self.new) };

    // One turn of the station: the next memory operation of its call.
    fn turn(&mut self, station: usize) -> Result<Progress, Refusal>
        ensures outcome { (result, view self.new) ≡ turns (view self.old) station }
        ensures refused { Kept (view self.old) (result, view self.new) }
        ensures meaning { (m : Model) → stands (view self.old) m → Turned stands m station (result, view self.new) };

    // so that code over any ring can reason about states without the calls
    ghost means: { HasMeaning state stands empty full adds takes turns };
}

// Of every ring: whatever calls come after it has been made, in whatever order and with any of them
// refused, it stands for a model, so that the meaning of each call is never empty.
pub fn runs_stand<R: Ring>()
    ensures { RunsStand R.Ring.state R.Ring.stands R.Ring.empty R.Ring.full R.Ring.adds R.Ring.takes R.Ring.turns }
{}
