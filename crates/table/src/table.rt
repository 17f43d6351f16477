ghost use Rattle.std.specs.Prelude.{◌≤◌};

use crate::Memory;
use ring::{Progress, Refusal, Ring, Sizes};

// A ring of indices, as its stations share it.
#[derive(Drop)]
pub struct Table<M: Memory> {
    memory: M,
    // how many stations may call
    stations: usize,
    // the ticket at which no counter moves on
    limit: usize,
    // for each station the step that its next turn makes
    // (an array that is used in part: memory is fixed, and the number of stations comes when the program runs)
    stages: [M::Stage; 64],
    pub ghost crew: { stations ≤ 64 },
    pub ghost bounded: { M.bounded stations limit (M.view memory) stages } by { M.bounded_prop stations limit (M.view memory) stages },
}

impl<M: Memory> Table<M> {
    ghost use Rattle.std.specs.Prelude.{◌≡◌, ◌<◌, if◌then◌else◌, Some, None, nat_lt, replicate};
    ghost use Rattle.ring.specs.Tables.{stage_of, opened, writes, adds, takes, turns, empty, full};
    ghost use Rattle.ring.specs.Meaning.{viewed};
    ghost use Rattle.ring.specs.Scans.{any_below};
    ghost use Rattle.table.specs.Begins.{may_begin};
    ghost use Rattle.table.specs.View.{view};

    // What the stations share.
    pub fn memory(&self) -> &M
        ensures { result.now ≡ self.now.memory }
    {
        &self.memory
    }

    // Where the station's call stands, if there is such a station.
    pub fn stage(&self, station: usize) -> Option<M::Stage>
        ensures { result ≡ (if nat_lt station self.now.stations then Some (stage_of M.steps.idle (view M.Memory self.now) station) else None) }
    {
        self.stages[..self.stations].get(station).copied()
    }

    // A new ring: every station is idle.
    fn open(memory: M, sizes: Sizes) -> Table<M>
        requires { M.bounded sizes.stations sizes.limit (M.view memory) (replicate 64 M.steps.idle) }
        ensures { view M.Memory result ≡ opened M.steps sizes.stations sizes.limit (M.view memory) }
    {
        Table {
            memory,
            stations: sizes.stations,
            limit: sizes.limit,
            stages: [M::idle(); 64],
        }
    }

    // The two ways of making a ring: a call that is handed M::empty or M::full would be no shorter than they are.
    fn open_empty(places: usize, stations: usize, limit: usize) -> Result<Table<M>, Refusal>
        ensures { viewed (view M.Memory) result ≡ empty M.steps places stations limit }
    {
        let sizes = Sizes::new(places, stations, limit)?;
        Ok(Table::open(M::empty(sizes), sizes))
    }

    fn open_full(places: usize, stations: usize, limit: usize) -> Result<Table<M>, Refusal>
        ensures { viewed (view M.Memory) result ≡ full M.steps places stations limit }
    {
        let sizes = Sizes::new(places, stations, limit)?;
        Ok(Table::open(M::full(sizes), sizes))
    }

    fn start_add(&mut self, station: usize, index: usize) -> Result<Progress, Refusal>
        ensures { (result, view M.Memory self.new) ≡ adds M.steps (view M.Memory self.old) station index }
    {
        self.check_idle(station)?;
        if index >= self.memory.places() {
            return Err(Refusal::NoIndex);
        }
        if self.is_there(index) || self.is_being_added(index) {
            return Err(Refusal::NotOutside);
        }
        self.stages[station] = M::adding(index);
        Ok(Progress::Going)
    }

    fn start_take(&mut self, station: usize) -> Result<Progress, Refusal>
        ensures { (result, view M.Memory self.new) ≡ takes M.steps (view M.Memory self.old) station }
    {
        self.check_idle(station)?;
        self.stages[station] = M::taking();
        Ok(Progress::Going)
    }

    // A station has one call in progress at the most.
    fn check_idle(&self, station: usize) -> Result<(), Refusal>
        ensures { result ≡ may_begin M.steps (view M.Memory self.now) station }
    {
        match self.stage(station) {
            None => Err(Refusal::NoStation),
            Some(stage) if M::is_idle(stage) => Ok(()),
            Some(_) => Err(Refusal::Busy),
        }
    }

    // Whether a slot has the index.
    fn is_there(&self, index: usize) -> bool
        ensures { result ≡ any_below (M.steps.slots (M.view self.now.memory)) (M.steps.is_there (M.view self.now.memory) index) }
    {
        let memory = &self.memory;
        (0..memory.slots()).any(
            |slot| -> bool
                requires { slot < M.steps.slots (M.view memory.now) }
                ensures { result ≡ M.steps.is_there (M.view memory.entry.now) index slot }
            { memory.is_at(index, slot) },
        )
    }

    // Whether a station is still to write the index.
    fn is_being_added(&self, index: usize) -> bool
        ensures { result ≡ any_below self.now.stations (writes M.steps (view M.Memory self.now) index) }
    {
        self.stages[..self.stations]
            .iter()
            .any(|stage| M::is_adding(*stage, index))
    }

    // One row of the step table: the station's next memory operation.
    fn step(&mut self, station: usize) -> Result<Progress, Refusal>
        ensures { (result, view M.Memory self.new) ≡ turns M.steps (view M.Memory self.old) station }
    {
        if station >= self.stations {
            return Err(Refusal::NoStation);
        }
        let limit = self.limit;
        let stage = &mut self.stages[station];
        self.memory.step(limit, stage)
    }
}

impl<M: Memory> Ring for Table<M> {
    ghost use Rattle.table.specs.View.{view};
    ghost use Rattle.ring.specs.Tables.{State, empty, full, adds, takes, turns};

    ghost state = { State M.shown M.Stage };

    ghost view = { view M.Memory };

    ghost empty = { empty M.steps };

    ghost full = { full M.steps };

    ghost adds = { adds M.steps };

    ghost takes = { takes M.steps };

    ghost turns = { turns M.steps };

    ghost stands = { M.stands };

    ghost means = { M.means };

    fn make_empty(places: usize, stations: usize, limit: usize) -> Result<Table<M>, Refusal> {
        Table::open_empty(places, stations, limit)
    }

    fn make_full(places: usize, stations: usize, limit: usize) -> Result<Table<M>, Refusal> {
        Table::open_full(places, stations, limit)
    }

    fn begin_add(&mut self, station: usize, index: usize) -> Result<Progress, Refusal> {
        self.start_add(station, index)
    }

    fn begin_take(&mut self, station: usize) -> Result<Progress, Refusal> {
        self.start_take(station)
    }

    fn turn(&mut self, station: usize) -> Result<Progress, Refusal> {
        self.step(station)
    }
}
