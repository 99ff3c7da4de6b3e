// Tables of cases for the stores and the contention managers.
#![tactic(auto)]

#[cfg(test)]
mod tests {
    use book::Refusal;
    use manager::ContentionManager;
    use manager::ranked::Ranked;
    use manager::rules::{Greedy, TwoPhase};
    use std::test::Fail;
    use store::Store;
    use store::byte::ByteStore;
    use store::lent::{LentStore, MemoryCell};
    use store::number::NumberStore;
    use store::window::Window;

    // Whether a store has so many words.
    fn has_words<S: Store>(store: &S, count: usize) -> bool {
        store.len() == count
            && count > 0
            && store.read(count - 1).is_ok()
            && store.read(count) == Err(Refusal::BeyondBook)
    }

    // Whether a store is opened on memory as it should be, and has so many words, or is refused. Refusals are compared, here
    // and below, by their numbers: those are what is told.
    fn opens_with<T: MemoryCell>(memory: &mut [T], words: Option<usize>) -> bool {
        match (LentStore::open(memory), words) {
            (Ok(store), Some(count)) => has_words(&store, count),
            (Err(unopened), None) => u8::from(unopened.refusal) == 7,
            _ => false,
        }
    }

    // The same for the front of some memory, of each length in a table.
    fn all_open_with<T: MemoryCell>(memory: &mut [T], cases: &[(usize, Option<usize>)]) -> bool {
        for &(length, words) in cases {
            let Some(front) = memory.get_mut(..length) else {
                return false;
            };
            if !opens_with(front, words) {
                return false;
            }
        }
        true
    }

    // How many numbers are lent, and how many words a store on them has, if it is opened.
    const NUMBERS: &[(usize, Option<usize>)] = &[
        (0, None),
        (1, Some(1)),
        (4095, Some(4095)),
        (4096, Some(4096)),
        (4097, None),
    ];

    // How many bytes are lent, and how many words a store on them has, if it is opened.
    const BYTES: &[(usize, Option<usize>)] = &[
        (0, None),
        (1, None),
        (3, None),
        (4, Some(1)),
        (5, None),
        (8, Some(2)),
        (16_380, Some(4095)),
        (16_384, Some(4096)),
        (16_385, None),
        (16_388, None),
    ];

    #[test]
    fn number_stores(rt: HostRuntime) -> Result<(), Fail> {
        let mut numbers = vec![in rt.alloc(); 0u32; 4097]?;
        assert!(rt; all_open_with(&mut numbers, NUMBERS));
        Ok(())
    }

    #[test]
    fn byte_stores(rt: HostRuntime) -> Result<(), Fail> {
        let mut bytes = vec![in rt.alloc(); 0u8; 16_388]?;
        assert!(rt; all_open_with(&mut bytes, BYTES));
        Ok(())
    }

    // A window's first word and number of words, and whether a store of 16 words has it: how many words it then has is given.
    const WINDOWS: &[(u32, u32, bool)] = &[
        (0, 0, false),
        (0, 1, true),
        (0, 16, true),
        (0, 17, false),
        (15, 1, true),
        (15, 2, false),
        (16, 0, false),
        (16, 1, false),
        (u32::MAX, 1, false),
        (1, u32::MAX, false),
        (u32::MAX, u32::MAX, false),
    ];

    #[test]
    fn windows(rt: HostRuntime) -> Result<(), Fail> {
        for &(first, count, opens) in WINDOWS {
            let mut words = [0u32; 16];
            let store = NumberStore::open(&mut words)?;
            match Window::open(store, first, count) {
                Ok(window) => assert!(rt; opens && has_words(&window, count as usize)),
                Err(unopened) => assert!(rt; !opens && u8::from(unopened.refusal) == 8),
            }
        }
        Ok(())
    }

    // A word of a byte store begins with its most significant byte, in a window of a window too.
    #[test]
    fn byte_order(rt: HostRuntime) -> Result<(), Fail> {
        let mut bytes = [0u8, 0, 0, 0, 0, 0, 0, 0, 0x12, 0x34, 0x56, 0x78, 0, 0, 0, 0];
        let store = ByteStore::open(&mut bytes)?;
        let outer = Window::open(store, 1, 3)?;
        let mut inner = Window::open(outer, 1, 1)?;
        assert_eq!(rt; inner.read(0), Ok(0x1234_5678));
        assert_eq!(rt; inner.write(0, 0x9ABC_DEF0), Ok(()));
        assert!(rt; inner.write(1, 1).is_err());
        let bytes = inner.close().close().close();
        assert_eq!(rt;
            &*bytes,
            [0, 0, 0, 0, 0, 0, 0, 0, 0x9A, 0xBC, 0xDE, 0xF0, 0, 0, 0, 0].as_slice()
        );
        Ok(())
    }

    // The first word of a window of some numbers.
    fn first_of_window(numbers: &mut [u32], first: u32, count: u32) -> Result<u32, Refusal> {
        let store = NumberStore::open(numbers)?;
        let window = Window::open(store, first, count)?;
        window.read(0)
    }

    // What is refused is told by `?` in the same way.
    #[test]
    fn refused_openings(rt: HostRuntime) {
        assert_eq!(rt; first_of_window(&mut [5, 6, 7], 1, 2), Ok(6));
        assert_eq!(rt; first_of_window(&mut [], 0, 1).map_err(u8::from), Err(7));
        assert_eq!(rt;
            first_of_window(&mut [5, 6, 7], 2, 2).map_err(u8::from),
            Err(8)
        );
    }

    // A rank is not given twice, the last number is not given, and what is no job gets none.
    #[test]
    fn ranks(rt: HostRuntime) {
        let mut manager = Ranked::new(Greedy, u32::MAX - 2);
        manager.began(7);
        assert_eq!(rt; manager.rank(7), Some(u32::MAX - 2));
        manager.ended(7);
        assert_eq!(rt; manager.rank(7), None);
        manager.began(7);
        manager.began(0);
        manager.began(8);
        manager.ended(8);
        assert_eq!(rt; manager.rank(7), Some(u32::MAX - 1));
        assert_eq!(rt; manager.rank(0), None);
        assert_eq!(rt; manager.rank(8), None);
        assert_eq!(rt; manager.next_rank(), u32::MAX);
    }

    // How many words a job has written, and whether two-phase gives it a rank then.
    const WRITTEN: &[(usize, bool)] = &[
        (0, false),
        (1, false),
        (9, false),
        (10, true),
        (11, false),
    ];

    #[test]
    fn tenth_word(rt: HostRuntime) {
        for &(length, gives) in WRITTEN {
            let mut manager = Ranked::new(TwoPhase, 1);
            manager.began(3);
            manager.wrote(3, length);
            assert_eq!(rt; manager.rank(3).is_some(), gives);
        }
    }

    // Two jobs, and whether the first yields to the second: job 0 has rank 3, job 1 rank 5, jobs 2 and above none.
    const YIELDING: &[(usize, usize, bool)] = &[
        (1, 0, true),
        (0, 1, false),
        (0, 2, false),
        (2, 0, true),
        (2, 3, true),
        (0, 0, false),
        (7, 8, true),
        (1, 8, false),
        (usize::MAX, 1, true),
    ];

    #[test]
    fn yielding(rt: HostRuntime) {
        let mut manager = Ranked::new(Greedy, 3);
        manager.began(0);
        manager.began(2);
        manager.began(1);
        manager.ended(2);
        assert_eq!(rt; manager.rank(0), Some(3));
        assert_eq!(rt; manager.rank(1), Some(5));
        assert_eq!(rt; manager.next_rank(), 6);
        for &(job, other, yields) in YIELDING {
            assert_eq!(rt; manager.yields(job, other), yields);
        }
    }
}
