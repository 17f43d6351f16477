// What the program shows of a ring besides its answers.

use ncq::Ncq;
use ncq_table::Stage as NcqStage;
use ring::Ring;
use scq::{Counters, Parts, Scq};
use scq_table::Stage as ScqStage;
use std::fmt;

pub(crate) trait Shown: Ring {
    // A step, by its name.
    type Step: fmt::Display + Copy;

    // The ring's own columns.
    type Columns: fmt::Display + Drop;

    // The headings of these columns.
    fn headings() -> &'static str;

    // The step that the station's next turn makes, if there is such a station. (Each ring gives its own
    // `stage`: only it knows the type.)
    fn step(&self, station: usize) -> Option<Self::Step>;

    // The ring's own columns after a step, or after a begin.
    fn columns(&self, step: Option<Self::Step>) -> Self::Columns;
}

impl Shown for Ncq {
    type Step = NcqStage;

    type Columns = &'static str;

    fn headings() -> &'static str {
        ""
    }

    fn step(&self, station: usize) -> Option<NcqStage> {
        self.stage(station)
    }

    fn columns(&self, _step: Option<NcqStage>) -> &'static str {
        ""
    }
}

// The counters, and the word that the step touches, if it touches one.
#[derive(Clone, Copy)]
pub(crate) struct ScqColumns {
    counters: Counters,
    word: Option<Word>,
}

// A word and what it is made up of.
#[derive(Clone, Copy)]
struct Word {
    number: usize,
    parts: Parts,
}

impl fmt::Display for ScqColumns {
    fn fmt<W: fmt::Write>(&self, f: &mut fmt::Formatter<W>) -> fmt::Result {
        let Counters {
            head,
            tail,
            threshold,
        } = self.counters;
        write!(f, "{head:>4}  {tail:>4}  {threshold:>9}  ")?;
        match self.word {
            Some(word) => write!(f, "{word}"),
            None => write!(f, "   -      -     -      -  "),
        }
    }
}

impl fmt::Display for Word {
    fn fmt<W: fmt::Write>(&self, f: &mut fmt::Formatter<W>) -> fmt::Result {
        let number = self.number;
        let Parts { cycle, safe, index } = self.parts;
        let safe = u8::from(safe);
        write!(f, "{number:>4}  {cycle:>5}  {safe:>4}  ")?;
        match index {
            Some(index) => write!(f, "{index:>5}  "),
            None => write!(f, "    ⊥  "),
        }
    }
}

// The ticket at whose slot the step loads or writes the word, if it does.
fn touched(step: ScqStage) -> Option<usize> {
    match step {
        ScqStage::A2 { ticket, .. }
        | ScqStage::A4 { ticket, .. }
        | ScqStage::T3 { ticket }
        | ScqStage::T4 { ticket, .. }
        | ScqStage::T5 { ticket, .. } => Some(ticket),
        _ => None,
    }
}

impl Shown for Scq {
    type Step = ScqStage;

    type Columns = ScqColumns;

    fn headings() -> &'static str {
        "head  tail  threshold  word  cycle  safe  index  "
    }

    fn step(&self, station: usize) -> Option<ScqStage> {
        self.stage(station)
    }

    fn columns(&self, step: Option<ScqStage>) -> ScqColumns {
        let memory = self.memory();
        let word = step.and_then(touched).map(|ticket| {
            let number = memory.word_at(ticket);
            Word {
                number,
                parts: memory.parts(number),
            }
        });
        ScqColumns {
            counters: Counters::of(self),
            word,
        }
    }
}
