ghost use Rattle.std.specs.Prelude.{ℕ, ◌^◌, ◌<◌, ◌≤◌, slice_index};

// What the stations of an NCQ share.
#[derive(Drop)]
pub struct NcqMemory {
    // how many indices there are, and how many slots the ring goes round
    pub(crate) places: usize,
    // the ticket of the next take
    pub(crate) head: usize,
    // the ticket of the next add; while an add has written its word and not moved Tail, the ticket of that word
    pub(crate) tail: usize,
    // for each slot which index was written there last, and in which cycle: places × cycle + index
    // (an array that is used in part: memory is fixed, and the number of places comes when the program runs)
    pub(crate) words: [usize; 64],
    ghost sized: { (1 ≤ places) × (places ≤ 64) },
    // no sum wraps
    ghost words_low: { (j : ℕ) → slice_index words j < 2 ^ 40 },
}
