// Small runs of the rings: how many turns a call takes, what it writes, and what is refused.

#![tactic(auto)]

#[cfg(test)]
mod tests {
    use ncq::Ncq;
    use ring::{Progress, Refusal, Ring};
    use scq::{Counters, Scq};
    use std::test::Fail;

    // The number of the refusal, if the call is refused.
    fn refusal_of<T: Drop>(told: Result<T, Refusal>) -> Option<u32> {
        told.err().map(Refusal::number)
    }

    // How many turns the station's call takes, and what it ends with.
    fn ended<R: Ring>(ring: &mut R, station: usize) -> Result<(u32, Progress), Fail> {
        for turn in 1..=9 {
            match ring.turn(station)? {
                Progress::Going => {}
                end => return Ok((turn, end)),
            }
        }
        Err(Fail::new("the call goes on"))
    }

    // The station adds the index to the end of its call.
    fn add<R: Ring>(ring: &mut R, station: usize, index: usize) -> Result<(u32, Progress), Fail> {
        ring.begin_add(station, index)?;
        ended(ring, station)
    }

    fn take<R: Ring>(ring: &mut R, station: usize) -> Result<(u32, Progress), Fail> {
        ring.begin_take(station)?;
        ended(ring, station)
    }

    #[test]
    fn an_ncq_add_takes_four_turns_and_a_take_three(rt: HostRuntime) -> Result<(), Fail> {
        let mut ring = Ncq::make_empty(1, 1, 4)?;
        ring.begin_add(0, 0)?;
        assert_eq!(rt; ended(&mut ring, 0)?, (4, Progress::Added));
        ring.begin_take(0)?;
        assert_eq!(rt; ended(&mut ring, 0)?, (3, Progress::Taken(Some(0))));
        Ok(())
    }

    #[test]
    fn a_take_of_none_from_an_ncq_takes_two_turns(rt: HostRuntime) -> Result<(), Fail> {
        let mut ring = Ncq::make_empty(2, 2, 100)?;
        assert_eq!(rt; take(&mut ring, 1)?, (2, Progress::Taken(None)));
        Ok(())
    }

    // The refusals of an empty ring with too low a limit, and of a full ring with each size wrong.
    fn wrong_sizes<R: Ring>() -> [Option<u32>; 2] {
        [
            refusal_of(R::make_empty(1, 1, 3)),
            refusal_of(R::make_full(128, 0, 3)),
        ]
    }

    #[test]
    fn the_first_wrong_size_is_refused(rt: HostRuntime) {
        assert_eq!(rt; wrong_sizes::<Ncq>(), [Some(3), Some(1)]);
        assert_eq!(rt; wrong_sizes::<Scq>(), [Some(3), Some(1)]);
    }

    // The refusal of a station's second begin, which names no index of the ring besides.
    fn second_begin<R: Ring>() -> Result<Option<u32>, Fail> {
        let mut ring = R::make_empty(1, 1, 4)?;
        ring.begin_take(0)?;
        Ok(refusal_of(ring.begin_add(0, 7)))
    }

    #[test]
    fn a_second_begin_is_refused(rt: HostRuntime) -> Result<(), Fail> {
        assert_eq!(rt; second_begin::<Ncq>()?, Some(6));
        assert_eq!(rt; second_begin::<Scq>()?, Some(6));
        Ok(())
    }

    // The refusal of an add of an index that a full ring has.
    fn add_to_full<R: Ring>() -> Result<Option<u32>, Fail> {
        let mut ring = R::make_full(2, 1, 8)?;
        Ok(refusal_of(ring.begin_add(0, 1)))
    }

    #[test]
    fn an_index_in_a_full_ncq_is_not_added_again(rt: HostRuntime) -> Result<(), Fail> {
        assert_eq!(rt; add_to_full::<Ncq>()?, Some(10));
        Ok(())
    }

    #[test]
    fn an_scq_add_takes_five_turns_and_the_take_after_it_four(rt: HostRuntime) -> Result<(), Fail> {
        let mut ring = Scq::make_empty(1, 1, 4)?;
        assert_eq!(rt; add(&mut ring, 0, 0)?, (5, Progress::Added));
        assert_eq!(rt; take(&mut ring, 0)?, (4, Progress::Taken(Some(0))));
        Ok(())
    }

    #[test]
    fn a_take_from_a_new_empty_scq_ends_on_its_first_turn(rt: HostRuntime) -> Result<(), Fail> {
        let mut ring = Scq::make_empty(2, 2, 100)?;
        assert_eq!(rt; take(&mut ring, 1)?, (1, Progress::Taken(None)));
        Ok(())
    }

    // For two places the word of cycle 3, safe and with index 1 is 8 × 3 + 4 × 1 + 1.
    #[test]
    fn a_take_empties_the_word_and_leaves_its_cycle(rt: HostRuntime) -> Result<(), Fail> {
        let mut ring = Scq::make_empty(2, 1, 100)?;
        for _ in 0..8 {
            add(&mut ring, 0, 0)?;
            take(&mut ring, 0)?;
        }
        assert_eq!(rt; Counters::of(&ring).tail, 12);
        add(&mut ring, 0, 1)?;
        assert_eq!(rt; ring.memory().word(0), Some(29));
        take(&mut ring, 0)?;
        assert_eq!(rt; ring.memory().word(0), Some(31));
        Ok(())
    }

    #[test]
    fn an_index_in_a_full_scq_is_not_added_again(rt: HostRuntime) -> Result<(), Fail> {
        assert_eq!(rt; add_to_full::<Scq>()?, Some(10));
        Ok(())
    }

    #[test]
    fn no_ticket_is_taken_at_the_limit(rt: HostRuntime) -> Result<(), Fail> {
        let mut ring = Scq::make_empty(1, 1, 4)?;
        for _ in 0..2 {
            add(&mut ring, 0, 0)?;
            take(&mut ring, 0)?;
        }
        ring.begin_add(0, 0)?;
        assert_eq!(rt; refusal_of(ring.turn(0)), Some(8));
        Ok(())
    }
}
