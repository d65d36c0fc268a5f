//! Scripts: jumps, registers, and rows that tasks share or lack.

use super::lists;
use std::test::Fail;

#[test]
fn jumps(rt: HostRuntime) -> Result<(), Fail> {
    // To the last row.
    lists(
        &rt,
        "0001 000C 0003 0012 00000003
          0102 0000 0003
          4A C8 FF 00 00000002 00000007
          44 00 00 00 00000005 00000000
          41 01 00 00 00000000 00000000",
        "0 accepted 1\n0 runs 1\n2 cut 1\n2 runs 0\nleft 0\n",
    )?;
    // To the row beyond it, which is the end of the script.
    lists(
        &rt,
        "0001 000C 0003 0012 00000003
          0102 0000 0003
          4A 00 FF 00 00000003 00000000
          44 00 00 00 00000005 00000000
          41 01 00 00 00000000 00000000",
        "0 accepted 1\n0 runs 1\n2 ended 1\n2 runs 0\nleft 0\n",
    )?;
    // As far as 32 bits reach.
    lists(
        &rt,
        "0001 000C 0003 0012 00000003
          0102 0000 0003
          4A 00 FF 00 FFFFFFFF 00000000
          44 00 00 00 00000005 00000000
          41 01 00 00 00000000 00000000",
        "0 accepted 1\n0 runs 1\n2 ended 1\n2 runs 0\nleft 0\n",
    )?;
    // A register that is not x: to the next row.
    lists(
        &rt,
        "0001 000C 0003 0012 00000003
          0102 0000 0003
          4A 00 01 00 00000002 00000000
          44 00 00 00 00000005 00000000
          41 01 00 00 00000000 00000000",
        "0 accepted 1\n0 runs 1\n2 runs 0\nleft 1\n",
    )?;
    // The register begins at 0.
    lists(
        &rt,
        "0001 000C 0003 0012 00000003
          0102 0000 0003
          4A 00 00 00 00000002 00000000
          44 00 00 00 00000005 00000000
          41 01 00 00 00000000 00000000",
        "0 accepted 1\n0 runs 1\n2 cut 1\n2 runs 0\nleft 0\n",
    )
}

#[test]
fn begins_each_run_anew(rt: HostRuntime) -> Result<(), Fail> {
    // The first run ends with 7 in its register. In the second the jump at 7 does not go by it, and the factor 0 is taken.
    lists(
        &rt,
        "0001 000C 0004 0012 0000000A
          0102 0000 0004
          4A 00 07 00 00000004 00000000
          53 01 07 00 00000000 00000000
          47 00 00 00 00000000 00000000
          51 01 00 00 00000000 00000000",
        "0 accepted 1\n0 runs 1\n4 accepted 1\n5 ended 1\n5 runs 1\n9 accepted 1\n10 ended 1\n10 runs 1\nleft 1\n",
    )?;
    // Task 1 is cut by its own bad delay, and task 2 starts it again, from its first row on.
    lists(
        &rt,
        "0002 000C 0005 0018 00000009
          0102 0000 0003
          0203 0003 0002
          52 02 00 00 00000000 00000000
          51 02 01 00 00000000 00000000
          44 00 00 00 00000000 00000000
          52 01 00 00 00000000 00000000
          51 01 01 00 00000000 00000000",
        "0 accepted 1\n0 runs 1\n2 accepted 2\n3 cut 1\n3 runs 2\n5 accepted 1\n5 runs 1\n7 accepted 2\n8 cut 1\n8 runs 2\n9 ended 2\n9 runs 2\nleft 1\n",
    )
}

#[test]
fn shares_rows(rt: HostRuntime) -> Result<(), Fail> {
    // The script of task 2 is the last two rows of that of task 1.
    lists(
        &rt,
        "0002 000C 0003 0018 00000009
          0102 0000 0003
          0203 0001 0002
          52 02 00 00 00000000 00000000
          51 02 04 00 00000000 00000000
          50 02 00 00 00000000 00000000",
        "0 accepted 1\n0 runs 1\n2 accepted 2\n3 runs 2\n4 accepted 2\n6 ended 2\n6 runs 2\n7 accepted 2\n9 ended 2\n9 runs 2\nleft 2\n",
    )
}

#[test]
fn has_no_rows(rt: HostRuntime) -> Result<(), Fail> {
    lists(
        &rt,
        "0001 000C 0000 0012 00000002
          0102 0000 0000",
        "0 accepted 1\n0 runs 1\n1 ended 1\n1 runs 0\nleft 0\n",
    )?;
    // Rows of nobody are not done.
    lists(
        &rt,
        "0001 000C 0001 0012 00000002
          0102 0001 0000
          44 00 00 00 00000005 00000000",
        "0 accepted 1\n0 runs 1\n1 ended 1\n1 runs 0\nleft 0\n",
    )
}
