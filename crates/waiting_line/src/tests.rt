// Lines that are refused, and stores that run out of cells or stamps.
use super::*;
use std::test::Fail;

// Not by `check` of store_checks, on which the program would then rest.
fn check_printed(rt: &impl AllocGlobal, text: &[u8], expected: &str) -> Result<(), Fail> {
    let answer = printed(text, rt.alloc())?;
    if answer.as_str() == expected {
        Ok(())
    } else {
        Err(Fail::new("another answer is printed"))
    }
}

#[test]
fn no_lines(rt: HostRuntime) -> Result<(), Fail> {
    check_printed(&rt, b"", "(taken 0)\n")
}

#[test]
fn last_line_without_end(rt: HostRuntime) -> Result<(), Fail> {
    check_printed(&rt, b"5 1 9\n6 1 8", "(take 6)\n(take 5)\n(taken 2)\n")
}

#[test]
fn needless_zero(rt: HostRuntime) -> Result<(), Fail> {
    check_printed(&rt, b"1 0 0\n07 0 0\n", "(refused 4 (line 2))\n")
}

#[test]
fn empty_line(rt: HostRuntime) -> Result<(), Fail> {
    check_printed(&rt, b"1 0 0\n\n2 0 0\n", "(refused 4 (line 2))\n")
}

#[test]
fn largest_numbers(rt: HostRuntime) -> Result<(), Fail> {
    check_printed(&rt, b"1023 9 1000000000\n", "(take 1023)\n(taken 1)\n")
}

#[test]
fn number_out_of_range(rt: HostRuntime) -> Result<(), Fail> {
    check_printed(&rt, b"1024 9 1000000000\n", "(refused 5 (line 1))\n")?;
    check_printed(&rt, b"0 10 0\n", "(refused 5 (line 1))\n")?;
    check_printed(&rt, b"0 0 99999999999999999999\n", "(refused 5 (line 1))\n")
}

// By a table of two cells and so many stamps.
fn check_small(
    rt: &impl AllocGlobal,
    stamps: u16,
    text: &[u8],
    expected: &str,
) -> Result<(), Fail> {
    let sizes = Sizes { cells: 2, stamps };
    let mut cells = vec![in rt.alloc(); None; 2]?;
    table::fits(&cells, sizes)?;
    let mut line = make(&mut cells, sizes);
    let answer = report(&mut line, text, rt.alloc())?;
    if answer.as_str() == expected {
        Ok(())
    } else {
        Err(Fail::new("another answer is printed"))
    }
}

#[test]
fn out_of_cells(rt: HostRuntime) -> Result<(), Fail> {
    let text = b"1 0 0\n2 0 0\n3 0 0\n";
    check_small(&rt, 9, text, "(refused 12 (line 3) (layer 0))\n")
}

#[test]
fn out_of_stamps(rt: HostRuntime) -> Result<(), Fail> {
    let text = b"1 0 0\n2 0 0\n";
    check_small(&rt, 1, text, "(refused 13 (line 2) (layer 0))\n")
}
