// A ring as a table of steps: a memory that the stations share, and for each station the step that its
// next turn makes. What the rings have in common is written and proved here, for any such table.

#![tactic(auto)]

ghost use Rattle.std.specs.Prelude.{◌≡◌, ℕ, ◌<◌, List, Ok};
ghost use Rattle.ring.specs.Tables.{State, Steps, Tells, applied, empty, full, adds, takes, turns};
ghost use Rattle.ring.specs.Model.{Model};
ghost use Rattle.ring.specs.Meaning.{HasMeaning};
ghost use Rattle.ring.specs.declared.Progress.TheVariants as Progress;
ghost use Rattle.ring.specs.Bounds.{KeepsBounds};

mod table;

use ring::{Progress, Refusal, Sizes};
pub use table::Table;

// What a row of the table tells: the progress and the station's next step, or a refusal.
pub type Row<S> = Result<(Progress, S), Refusal>;

// What the stations of a ring share, and the steps that they make on it.
pub trait Memory: Sized + Drop {
    // Where a station's call stands: the step that its next turn makes, with the station's own registers.
    type Stage: Copy;

    // The memory as a type of the specification, and how it is shown.
    ghost shown: { Type 0 };

    ghost view: { Self → shown };

    // All that the table says of the memory and of the steps.
    ghost steps: { Steps shown Self.Stage };

    // What a step needs to be safe, at a ticket limit; and what is kept of all, at a number of stations and a limit.
    ghost fits: { ℕ → shown → Self.Stage → Type 0 };

    ghost bounded: { ℕ → ℕ → shown → List Self.Stage → Type 0 };

    ghost bounded_prop: { (k l : ℕ) (m : shown) (xs : List Self.Stage) → IsProp (bounded k l m xs) };

    // The models that a ring stands for.
    ghost stands: { State shown Self.Stage → Model → Type 0 };

    // The memory of a new ring with no pair.
    fn empty(sizes: Sizes) -> Self
        ensures { view result ≡ steps.empty sizes.places };

    // The memory of a new ring with a pair for each index.
    fn full(sizes: Sizes) -> Self
        ensures { view result ≡ steps.full sizes.places };

    // How many indices there are.
    fn places(&self) -> usize
        ensures { result ≡ steps.places (view self.now) };

    // How many slots the ring goes round.
    fn slots(&self) -> usize
        ensures { result ≡ steps.slots (view self.now) };

    // Whether the index is in the ring at that slot.
    fn is_at(&self, index: usize, slot: usize) -> bool
        requires { slot < steps.slots (view self.now) }
        ensures { result ≡ steps.is_there (view self.now) index slot };

    // The step of a station that has no call.
    fn idle() -> Self::Stage
        ensures { result ≡ steps.idle };

    fn is_idle(stage: Self::Stage) -> bool
        ensures { result ≡ steps.is_idle stage };

    // The first step of an add of the index.
    fn adding(index: usize) -> Self::Stage
        ensures { result ≡ steps.adding index };

    // The first step of a take.
    fn taking() -> Self::Stage
        ensures { result ≡ steps.taking };

    // Whether a call that stands there is still to write the index. (Each memory names its own steps here.)
    fn is_adding(stage: Self::Stage, index: usize) -> bool
        ensures { result ≡ steps.is_adding index stage };

    // A row of the table: the memory operation of that step. It tells the progress and the station's next step.
    fn row(&mut self, limit: usize, stage: &Self::Stage) -> Row<Self::Stage>
        requires { fits limit (view self.old) stage.now }
        ensures { Tells steps limit (view self.old) stage.now result (view self.new) };

    // The next step of a station's call.
    final fn step(&mut self, limit: usize, stage: &mut Self::Stage) -> Result<Progress, Refusal>
        requires { fits limit (view self.old) stage.old }
        ensures { (result, view self.new, stage.new) ≡ applied (steps.step (view self.old) limit stage.old) (view self.old) stage.old }
    {
        let (progress, next) = self.row(limit, stage)?;
        *stage = next;
        Ok(progress)
    }

    // What code over any such ring can reason by.
    ghost bounds: { KeepsBounds shown Self.Stage steps fits bounded };

    ghost means: { HasMeaning (State shown Self.Stage) stands (empty steps) (full steps) (adds steps) (takes steps) (turns steps) };
}

// A row after which the call goes on at that step.
pub fn going<S>(stage: S) -> Row<S>
    ensures { result ≡ Ok (Progress.Going, stage) }
{
    Ok((Progress::Going, stage))
}
