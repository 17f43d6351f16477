// Two stations hand indices to each other over a ring. One of them falls silent in the middle of an
// add, and the other goes on without it. The story is told of an NCQ ring and of an SCQ ring.

#![tactic(auto)]

mod shed;
mod shown;

use crate::shed::{Shed, Station};
use crate::shown::Shown;
use ncq::Ncq;
use scq::Scq;

const PLACES: usize = 2;

const STATIONS: usize = 2;

fn story<R: Shown>(rt: &HostRuntime) -> anyhow::Result<()> {
    let mut shed = Shed::<R>::open(rt)?;
    let (first, second) = (Station::FIRST, Station::SECOND);
    let headings = R::headings();
    println!(rt; "line  station  step         {headings}answer")?;
    pass(rt, &mut shed, first, 0, second)?;
    shed.add(rt, first, 1)?;
    shed.turn(rt, first)?;
    shed.turn(rt, first)?;
    println!(rt; "      station {first} has loaded a word and falls silent")?;
    pass(rt, &mut shed, second, 0, second)?;
    pass(rt, &mut shed, second, 0, second)?;
    println!(rt; "      station {first} comes back, and its word is no longer there")?;
    shed.finish(rt, first)?;
    shed.take(rt, second)?;
    shed.finish(rt, second)?;
    println!(rt; "")?;
    shed.print_summary(rt)
}

// One station adds the index, and the other takes it.
fn pass<R: Shown>(
    rt: &HostRuntime,
    shed: &mut Shed<R>,
    from: Station,
    index: usize,
    to: Station,
) -> anyhow::Result<()> {
    shed.add(rt, from, index)?;
    shed.finish(rt, from)?;
    shed.take(rt, to)?;
    shed.finish(rt, to)
}

fn stories(rt: &HostRuntime) -> anyhow::Result<()> {
    println!(rt; "NCQ")?;
    story::<Ncq>(rt)?;
    println!(rt; "")?;
    println!(rt; "SCQ")?;
    story::<Scq>(rt)
}

fn main(rt: HostRuntime) -> anyhow::Result<()> {
    stories(&rt)
}
