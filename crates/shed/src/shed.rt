// The shed: a ring, and what has gone through it.

ghost use Rattle.std.specs.Prelude.{◌≡◌, ◌<◌};

use crate::shown::Shown;
use crate::{PLACES, STATIONS};
use anyhow::anyhow;
use ring::{Answer, Progress, Refusal};
use std::alloc::AllocError;
use std::fmt;

// a call ends within 16 lone turns for each place, and 16 more
const MOST_TURNS: usize = 16 * PLACES + 16;

// A station of the story.
#[derive(Clone, Copy)]
pub(crate) struct Station {
    number: usize,
    ghost known: { number < 2 },
}

impl Station {
    pub(crate) const FIRST: Station = Station { number: 0 };

    pub(crate) const SECOND: Station = Station { number: 1 };
}

impl fmt::Display for Station {
    fn fmt<W: fmt::Write>(&self, f: &mut fmt::Formatter<W>) -> fmt::Result {
        self.number.fmt(f)
    }
}

// What the ring told of a call, with the number of the answer.
#[derive(Clone, Copy)]
struct Told(Progress);

impl fmt::Display for Told {
    fn fmt<W: fmt::Write>(&self, f: &mut fmt::Formatter<W>) -> fmt::Result {
        let number = Answer::from(self.0).number();
        match self.0 {
            Progress::Going => write!(f, "{number} going on"),
            Progress::Added => write!(f, "{number} added"),
            Progress::Taken(Some(index)) => write!(f, "{number} took index {index}"),
            Progress::Taken(None) => write!(f, "{number} none"),
        }
    }
}

// A station's call: the index that it adds, and the turns that it has had.
#[derive(Clone, Copy)]
struct Call {
    adds: Option<usize>,
    turns: u32,
}

// Who added an index last, and in how many turns.
#[derive(Clone, Copy)]
struct Added {
    by: Station,
    turns: u32,
}

// An index that went from one station to another.
#[derive(Clone, Copy)]
struct Passed {
    index: usize,
    from: Station,
    to: Station,
    // of its add and of its take together
    turns: u32,
}

#[derive(Drop)]
pub(crate) struct Shed<R> {
    ring: R,
    // how many lines of the table are printed
    lines: u32,
    // each station's call in progress, or its last
    calls: [Call; STATIONS],
    // the last add of each index that has ended
    added: [Option<Added>; PLACES],
    passed: Vec<Passed>,
}

impl<R: Shown> Shed<R> {
    pub(crate) fn open(rt: &HostRuntime) -> Result<Shed<R>, Refusal> {
        Ok(Shed {
            ring: R::make_empty(PLACES, STATIONS, 100)?,
            lines: 0,
            calls: [Call {
                adds: None,
                turns: 0,
            }; STATIONS],
            added: [None; PLACES],
            passed: Vec::new(rt.alloc()),
        })
    }

    pub(crate) fn add(
        &mut self,
        rt: &HostRuntime,
        station: Station,
        index: usize,
    ) -> anyhow::Result<()> {
        let progress = self.begin_add(station, index)?;
        let step = format!(in rt.alloc(); "begin add {index}")?;
        self.print(rt, station, step.as_str(), None, progress)
    }

    fn begin_add(&mut self, station: Station, index: usize) -> Result<Progress, Refusal>
        ensures { R.Ring.view self.new.ring ≡ (R.Ring.adds (R.Ring.view self.old.ring) station.number index).1 }
    {
        let progress = self.ring.begin_add(station.number, index)?;
        self.calls[station.number] = Call {
            adds: Some(index),
            turns: 0,
        };
        Ok(progress)
    }

    pub(crate) fn take(&mut self, rt: &HostRuntime, station: Station) -> anyhow::Result<()> {
        let progress = self.begin_take(station)?;
        self.print(rt, station, "begin take", None, progress)
    }

    fn begin_take(&mut self, station: Station) -> Result<Progress, Refusal>
        ensures { R.Ring.view self.new.ring ≡ (R.Ring.takes (R.Ring.view self.old.ring) station.number).1 }
    {
        let progress = self.ring.begin_take(station.number)?;
        self.calls[station.number] = Call {
            adds: None,
            turns: 0,
        };
        Ok(progress)
    }

    // The station's turns to the end of its call.
    pub(crate) fn finish(&mut self, rt: &HostRuntime, station: Station) -> anyhow::Result<()> {
        for _ in 0..MOST_TURNS {
            if self.turn(rt, station)? != Progress::Going {
                return Ok(());
            }
        }
        Err(anyhow!("the call goes on"))
    }

    pub(crate) fn turn(&mut self, rt: &HostRuntime, station: Station) -> anyhow::Result<Progress> {
        let step = self.ring.step(station.number).ok_or(Refusal::NoStation)?;
        let progress = self.make_turn(station)?;
        self.note(station, progress)?;
        self.print(rt, station, step, Some(step), progress)?;
        Ok(progress)
    }

    fn make_turn(&mut self, station: Station) -> Result<Progress, Refusal>
        ensures { R.Ring.view self.new.ring ≡ (R.Ring.turns (R.Ring.view self.old.ring) station.number).1 }
    {
        let progress = self.ring.turn(station.number)?;
        let call = &mut self.calls[station.number];
        call.turns = call.turns.saturating_add(1);
        Ok(progress)
    }

    // Keeps what the end of a call says of an index.
    fn note(&mut self, station: Station, progress: Progress) -> Result<(), AllocError>
        ensures { self.new.ring ≡ self.old.ring }
    {
        let Call { adds, turns } = self.calls[station.number];
        match (progress, adds) {
            (Progress::Added, Some(index)) => {
                if let Some(last) = self.added.get_mut(index) {
                    *last = Some(Added { by: station, turns });
                }
            }
            (Progress::Taken(Some(index)), _) => {
                if let Some(Some(added)) = self.added.get(index) {
                    self.passed.push(Passed {
                        index,
                        from: added.by,
                        to: station,
                        turns: added.turns.saturating_add(turns),
                    })?;
                }
            }
            _ => {}
        }
        Ok(())
    }

    // A line of the table, with the ring's own columns.
    fn print(
        &mut self,
        rt: &HostRuntime,
        station: Station,
        name: impl fmt::Display + Copy,
        step: Option<R::Step>,
        progress: Progress,
    ) -> anyhow::Result<()>
        ensures { self.new.ring ≡ self.old.ring }
    {
        self.lines = self.lines.saturating_add(1);
        let line = self.lines;
        let station = station.number;
        let columns = self.ring.columns(step);
        let told = Told(progress);
        println!(rt; "{line:>4}  {station:>7}  {name:<11}  {columns}{told}")?;
        Ok(())
    }

    pub(crate) fn print_summary(&self, rt: &HostRuntime) -> anyhow::Result<()> {
        for &Passed {
            index,
            from,
            to,
            turns,
        } in &self.passed {
            println!(rt;
                "index {index} went from station {from} to station {to} in {turns} turns"
            )?;
        }
        Ok(())
    }
}
