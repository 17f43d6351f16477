use crate::Layout;

// What the stations of an SCQ share.
#[derive(Drop)]
pub struct ScqMemory {
    pub(crate) layout: Layout,
    // the ticket of the next take
    pub(crate) head: usize,
    // the ticket of the next add
    pub(crate) tail: usize,
    // how many tickets takes may still fail at; below 0 there is nothing to take
    pub(crate) threshold: i64,
    // for each slot a cycle, a safe bit and an index: 4 × places × cycle + 2 × places × safe + index
    // (an array that is used in part: memory is fixed, and the number of places comes when the program runs)
    pub(crate) words: [usize; 128],
}
