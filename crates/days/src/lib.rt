// A hub's calls as exact outcomes, days of such calls, and the rules that every day keeps.
//
// A hub passes records between stations. It has n places for records and two rings of their indices:
// the free ring has the index of each place that is free, the waiting ring those whose records wait.
// What a call does is said in specs/Outcome.antt; what a day is, in specs/Day.antt; the rules, in specs/Rules.antt.
// That every day keeps them is not proved yet: proofs/ has what stands of the proof.

#![tactic(auto)]

// Where a station's call stands: what its next turn does.
#[derive(Clone, Copy, Debug, PartialEq, Eq)]
pub enum Stage {
    // no call in progress
    Idle,
    // a put: the next operation of taking an index from the free ring
    TakeFree,
    // a put: copy the record from the hand to the place, and begin to add its index to the waiting ring
    Store { index: usize },
    // a put: the next operation of adding that index
    AddWaiting,
    // a take: the next operation of taking an index from the waiting ring
    TakeWaiting,
    // a take: copy the record from the place to the hand, and begin to add its index to the free ring
    Fetch { index: usize },
    // a take: the next operation of adding that index
    AddFree,
}
