// Tests of the table.
#![tactic(auto)]

#[cfg(test)]
mod tests {
    use elements::LineEntry;
    use records::Record;
    use std::test::Fail;
    use store_checks::{Answer, Call, FULL, MELDED, ORDERED, SPENT, cancelled, passes};
    use stores::Sizes;
    use table::{fits, make};

    // The number of the refusal, if any, of a slice and sizes.
    fn unfit(slice: &[Option<Record<LineEntry>>], cells: u16, stamps: u16) -> Option<u8> {
        let answer = fits(slice, Sizes { cells, stamps });
        answer.err().map(|unfit| unfit.number())
    }

    // Whether the table of the slice passes the script.
    fn run(
        slice: &mut [Option<Record<LineEntry>>],
        cells: u16,
        stamps: u16,
        script: &[(Call, Answer)],
    ) -> Result<(), Fail> {
        let sizes = Sizes { cells, stamps };
        fits(slice, sizes)?;
        passes(&mut make(slice, sizes), script)
    }

    #[test]
    fn sizes_and_length_are_tested(rt: HostRuntime) {
        let cells: [Option<Record<LineEntry>>; 4] = [None; 4];
        assert_eq!(rt; unfit(&cells, 4, 32768), None);
        assert_eq!(rt; unfit(&cells, 3, 4), Some(1), "a slice of another length");
        assert_eq!(rt; unfit(&cells, 4, 0), Some(1));
        assert_eq!(rt; unfit(&cells, 4, 32769), Some(1));
        assert_eq!(rt; unfit(&cells[0..0], 0, 4), Some(1));
    }

    #[test]
    fn full_table_refuses() -> Result<(), Fail> {
        run(&mut [None; 2], 2, 3, &FULL)
    }

    #[test]
    fn spent_table_refuses() -> Result<(), Fail> {
        run(&mut [None; 2], 2, 2, &SPENT)
    }

    #[test]
    fn entries_are_cancelled() -> Result<(), Fail> {
        run(&mut [None; 4], 4, 4, &cancelled(0))
    }

    #[test]
    fn queues_are_melded() -> Result<(), Fail> {
        run(&mut [None; 4], 4, 4, &MELDED)
    }

    #[test]
    fn entries_come_in_order() -> Result<(), Fail> {
        run(&mut [None; 4], 4, 4, &ORDERED)
    }
}
