// The naive circular queue as a table of steps, and the theorem that the table has a ring's meaning.

#![tactic(auto)]

ghost use Rattle.std.specs.Prelude.{Some};
ghost use Rattle.std.specs.Fmt.{padded};
ghost use Rattle.ring.specs.Meaning.{HasMeaning};
ghost use Rattle.ncq_table.specs.Table.{State, empty, full, adds, takes, turns};
ghost use Rattle.ncq_table.specs.Names.{step_name};
ghost use Rattle.ncq_table.specs.Stands.{Stands};
ghost use Rattle.ncq_table.specs.Example.{MidAddStands};

use std::fmt;

// Where a station's call stands: the step that its next turn makes, with the station's own registers.
// N1 to N5 add an index, N6 to N8 take one.
#[derive(Clone, Copy, Debug, PartialEq, Eq)]
pub enum Stage {
    // no call in progress
    Idle,
    // load Tail
    N1 {
        index: usize,
    },
    // load the word at the ticket's slot
    N2 {
        index: usize,
        ticket: usize,
    },
    // compare-and-set Tail: another add has filled the slot and not yet moved Tail
    N3 {
        index: usize,
        ticket: usize,
    },
    // compare-and-set the word that N2 loaded
    N4 {
        index: usize,
        ticket: usize,
        word: usize,
    },
    // compare-and-set Tail past the ticket whose word was written
    N5 {
        ticket: usize,
    },
    // load Head
    N6,
    // load the word at the ticket's slot
    N7 {
        ticket: usize,
    },
    // compare-and-set Head past the ticket whose word N7 loaded
    N8 {
        ticket: usize,
        word: usize,
    },
}

// The name of the step.
impl fmt::Display for Stage {
    ghost output = { λ stage. Some (step_name stage) };

    ghost styled_output = { λ stage spec. Some (padded spec (step_name stage)) };

    fn fmt<W: fmt::Write>(&self, f: &mut fmt::Formatter<W>) -> fmt::Result {
        f.pad(match self {
            Stage::Idle => "idle",
            Stage::N1 { .. } => "N1",
            Stage::N2 { .. } => "N2",
            Stage::N3 { .. } => "N3",
            Stage::N4 { .. } => "N4",
            Stage::N5 { .. } => "N5",
            Stage::N6 => "N6",
            Stage::N7 { .. } => "N7",
            Stage::N8 { .. } => "N8",
        })
    }
}

// Whatever calls come, in whatever order, the table does what a ring may do. (This theorem and the next are
// of this table: to say them of any, the table would have to be a type.)
pub fn table_has_the_meaning()
    ensures { HasMeaning State Stands empty full adds takes turns }
{}

// A ring of one place whose add has written its word, and has not yet moved Tail, stands for a model
// with the pair under ticket 1.
pub fn mid_add_stands()
    ensures { MidAddStands 1 }
{}
