// The scalable circular queue as a table of steps, and the theorem that the table has a ring's meaning.

#![tactic(auto)]

ghost use Rattle.std.specs.Prelude.{Some};
ghost use Rattle.std.specs.Fmt.{padded};
ghost use Rattle.ring.specs.Meaning.{HasMeaning};
ghost use Rattle.scq_table.specs.Table.{State, empty, full, adds, takes, turns};
ghost use Rattle.scq_table.specs.Names.{step_name};
ghost use Rattle.scq_table.specs.Stands.{Stands};
ghost use Rattle.scq_table.specs.Example.{MidAddStands};

use std::fmt;

// Where a station's call stands: the step that its next turn makes, with the station's own registers.
// A1 to A6 add an index, T1 to T11 take one.
#[derive(Clone, Copy, Debug, PartialEq, Eq)]
pub enum Stage {
    // no call in progress
    Idle,
    // fetch-and-add Tail: the old value is the add's ticket
    A1 {
        index: usize,
    },
    // load the word at the ticket's slot
    A2 {
        index: usize,
        ticket: usize,
    },
    // load Head: the word that A2 loaded is not safe, and may be used only if no take has passed the ticket
    A3 {
        index: usize,
        ticket: usize,
        word: usize,
    },
    // compare-and-set the word that A2 loaded
    A4 {
        index: usize,
        ticket: usize,
        word: usize,
    },
    // load Threshold
    A5 {
        ticket: usize,
    },
    // store the highest Threshold
    A6 {
        ticket: usize,
    },
    // load Threshold
    T1,
    // fetch-and-add Head: the old value is the take's ticket
    T2,
    // load the word at the ticket's slot
    T3 {
        ticket: usize,
    },
    // OR the word with the empty index: the word that T3 loaded has the ticket's pair
    T4 {
        ticket: usize,
        word: usize,
    },
    // compare-and-set the word that T3 loaded, so that no late add uses the ticket
    T5 {
        ticket: usize,
        word: usize,
    },
    // load Tail
    T6 {
        ticket: usize,
    },
    // compare-and-set Tail from the value that was loaded to that of Head
    T7 {
        ticket: usize,
        tail: usize,
        head: usize,
    },
    // load Head
    T8 {
        ticket: usize,
    },
    // load Tail
    T9 {
        ticket: usize,
        head: usize,
    },
    // fetch-and-subtract Threshold: the take ends
    T10 {
        ticket: usize,
    },
    // fetch-and-subtract Threshold: the take ends, or tries the next ticket
    T11 {
        ticket: usize,
    },
}

// The name of the step.
impl fmt::Display for Stage {
    ghost output = { λ stage. Some (step_name stage) };

    ghost styled_output = { λ stage spec. Some (padded spec (step_name stage)) };

    fn fmt<W: fmt::Write>(&self, f: &mut fmt::Formatter<W>) -> fmt::Result {
        f.pad(match self {
            Stage::Idle => "idle",
            Stage::A1 { .. } => "A1",
            Stage::A2 { .. } => "A2",
            Stage::A3 { .. } => "A3",
            Stage::A4 { .. } => "A4",
            Stage::A5 { .. } => "A5",
            Stage::A6 { .. } => "A6",
            Stage::T1 => "T1",
            Stage::T2 => "T2",
            Stage::T3 { .. } => "T3",
            Stage::T4 { .. } => "T4",
            Stage::T5 { .. } => "T5",
            Stage::T6 { .. } => "T6",
            Stage::T7 { .. } => "T7",
            Stage::T8 { .. } => "T8",
            Stage::T9 { .. } => "T9",
            Stage::T10 { .. } => "T10",
            Stage::T11 { .. } => "T11",
        })
    }
}

// Whatever calls come, in whatever order, the table does what a ring may do. (This theorem and the next are
// of this table: to say them of any, the table would have to be a type.)
pub fn table_has_the_meaning()
    ensures { HasMeaning State Stands empty full adds takes turns }
{}

// A ring of one place whose add has written its word, and has not yet stored Threshold, stands for a
// model with the pair under ticket 2.
pub fn mid_add_stands()
    ensures { MidAddStands 2 }
{}
