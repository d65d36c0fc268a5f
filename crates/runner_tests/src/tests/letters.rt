//! A book for each letter. The fields that it does not use hold what would be out of range.

use super::lists;
use std::test::Fail;

#[test]
fn releases_and_queues(rt: HostRuntime) -> Result<(), Fail> {
    // Task 2 is released and takes a start; it runs when task 1 is at the end of its script, and is at its own end at once.
    lists(
        &rt,
        "0002 000C 0002 0018 00000005
          0102 0000 0002
          0203 0002 0000
          52 02 09 00 00000007 00000007
          51 02 05 00 00000007 00000007",
        "0 accepted 1\n0 runs 1\n2 accepted 2\n3 ended 1\n3 runs 2\n4 ended 2\n4 runs 0\nleft 0\n",
    )?;
    // A dormant task takes none, and task 1 goes on to its next row.
    lists(
        &rt,
        "0002 000C 0002 0018 00000003
          0102 0000 0002
          0203 0002 0000
          51 02 05 00 00000000 00000000
          58 00 00 00 00000000 00000000",
        "0 accepted 1\n0 runs 1\n2 ended 1\n2 runs 0\nleft 0\n",
    )?;
    // Two starts stand, and the third is missed.
    lists(
        &rt,
        "0001 000C 0003 0012 00000003
          0102 0000 0003
          51 01 00 00 00000000 00000000
          51 01 00 00 00000000 00000000
          51 01 00 00 00000000 00000000",
        "0 accepted 1\n0 runs 1\n1 accepted 1\n2 missed 1\n3 missed 1\nleft 2\n",
    )
}

#[test]
fn aborts(rt: HostRuntime) -> Result<(), Fail> {
    // Another task: its start is cut, and task 1 goes on.
    lists(
        &rt,
        "0002 000C 0003 0018 00000004
          0102 0000 0003
          0203 0003 0000
          52 02 00 00 00000000 00000000
          51 02 01 00 00000000 00000000
          41 02 09 00 00000007 00000007",
        "0 accepted 1\n0 runs 1\n2 accepted 2\n3 cut 2\n4 ended 1\n4 runs 0\nleft 0\n",
    )?;
    // Itself.
    lists(
        &rt,
        "0001 000C 0001 0012 00000002
          0102 0000 0001
          41 01 00 00 00000000 00000000",
        "0 accepted 1\n0 runs 1\n1 cut 1\n1 runs 0\nleft 0\n",
    )
}

#[test]
fn delays(rt: HostRuntime) -> Result<(), Fail> {
    // For two milliseconds; the tick of its own step is the first.
    lists(
        &rt,
        "0001 000C 0001 0012 00000004
          0102 0000 0001
          44 C8 63 00 00000002 00000007",
        "0 accepted 1\n0 runs 1\n1 runs 0\n2 wakened 1\n2 runs 1\n3 ended 1\n3 runs 0\nleft 0\n",
    )?;
    // Not at all, which is out of range: the task is cut.
    lists(
        &rt,
        "0001 000C 0001 0012 00000002
          0102 0000 0001
          44 00 00 00 00000000 00000000",
        "0 accepted 1\n0 runs 1\n1 cut 1\n1 runs 0\nleft 0\n",
    )?;
    // A day, and one millisecond more.
    lists(
        &rt,
        "0001 000C 0001 0012 00000002
          0102 0000 0001
          44 00 00 00 05265C00 00000000",
        "0 accepted 1\n0 runs 1\n1 runs 0\nleft 1\n",
    )?;
    lists(
        &rt,
        "0001 000C 0001 0012 00000002
          0102 0000 0001
          44 00 00 00 05265C01 00000000",
        "0 accepted 1\n0 runs 1\n1 cut 1\n1 runs 0\nleft 0\n",
    )
}

#[test]
fn sets_timers(rt: HostRuntime) -> Result<(), Fail> {
    // After two ticks, and then at each third. Task 2 takes its factor, and is at its end in the step after.
    lists(
        &rt,
        "0002 000C 0004 0018 00000009
          0102 0000 0003
          0203 0003 0001
          52 02 00 00 00000000 00000000
          54 02 07 00 00000002 00000003
          44 00 00 00 00000014 00000000
          47 00 00 00 00000000 00000000",
        "0 accepted 1\n0 runs 1\n3 runs 0\n3 accepted 2\n3 runs 2\n5 ended 2\n5 runs 0\n6 accepted 2\n6 runs 2\n8 ended 2\n8 runs 0\n9 accepted 2\n9 runs 2\nleft 2\n",
    )
}

#[test]
fn cancels_timers(rt: HostRuntime) -> Result<(), Fail> {
    // The timer goes before its third tick.
    lists(
        &rt,
        "0002 000C 0003 0018 00000006
          0102 0000 0003
          0203 0003 0000
          52 02 00 00 00000000 00000000
          54 02 07 00 00000003 00000000
          43 02 07 00 00000009 00000009",
        "0 accepted 1\n0 runs 1\n4 ended 1\n4 runs 0\nleft 0\n",
    )?;
    // Another factor matches nothing: that is turned down, and the timer fires.
    lists(
        &rt,
        "0002 000C 0003 0018 00000006
          0102 0000 0003
          0203 0003 0000
          52 02 00 00 00000000 00000000
          54 02 07 00 00000003 00000000
          43 02 06 00 00000000 00000000",
        "0 accepted 1\n0 runs 1\n4 ended 1\n4 runs 0\n4 accepted 2\n4 runs 2\n5 ended 2\n5 runs 0\nleft 0\n",
    )
}

#[test]
fn changes_levels(rt: HostRuntime) -> Result<(), Fail> {
    // Task 2 becomes better than task 1.
    lists(
        &rt,
        "0002 000C 0003 0018 00000005
          0102 0000 0003
          0203 0003 0000
          52 02 00 00 00000000 00000000
          51 02 01 00 00000000 00000000
          50 02 00 00 00000009 00000009",
        "0 accepted 1\n0 runs 1\n2 accepted 2\n3 runs 2\n4 ended 2\n4 runs 1\n5 ended 1\n5 runs 0\nleft 0\n",
    )
}

#[test]
fn sets_and_gets_factors(rt: HostRuntime) -> Result<(), Fail> {
    // The factor that was set is in the register, and the jump goes by it.
    lists(
        &rt,
        "0001 000C 0005 0012 00000005
          0102 0000 0005
          53 01 09 00 00000007 00000007
          47 C8 63 00 00000007 00000007
          4A 00 09 00 00000004 00000000
          44 00 00 00 00000005 00000000
          58 00 00 00 00000000 00000000",
        "0 accepted 1\n0 runs 1\n4 ended 1\n4 runs 0\nleft 0\n",
    )?;
    // The smallest comes first: the jump at 5 goes on where 3 was taken, and away where 5 was.
    lists(
        &rt,
        "0001 000C 0007 0012 00000007
          0102 0000 0007
          53 01 05 00 00000000 00000000
          53 01 03 00 00000000 00000000
          47 00 00 00 00000000 00000000
          4A 00 05 00 00000006 00000000
          47 00 00 00 00000000 00000000
          4A 00 05 00 00000007 00000000
          44 00 00 00 00000001 00000000",
        "0 accepted 1\n0 runs 1\n7 ended 1\n7 runs 0\nleft 0\n",
    )
}

#[test]
fn holds(rt: HostRuntime) -> Result<(), Fail> {
    // A held task does not run.
    lists(
        &rt,
        "0002 000C 0004 0018 00000005
          0102 0000 0004
          0203 0004 0000
          52 02 00 00 00000000 00000000
          51 02 01 00 00000000 00000000
          48 02 09 00 00000007 00000007
          58 00 00 00 00000000 00000000",
        "0 accepted 1\n0 runs 1\n2 accepted 2\n4 ended 1\n4 runs 0\nleft 1\n",
    )?;
    // Its hold ends.
    lists(
        &rt,
        "0002 000C 0005 0018 00000006
          0102 0000 0005
          0203 0005 0000
          52 02 00 00 00000000 00000000
          51 02 01 00 00000000 00000000
          48 02 00 00 00000000 00000000
          55 02 09 00 00000007 00000007
          58 00 00 00 00000000 00000000",
        "0 accepted 1\n0 runs 1\n2 accepted 2\n5 ended 1\n5 runs 2\n6 ended 2\n6 runs 0\nleft 0\n",
    )
}

#[test]
fn sets_wakes(rt: HostRuntime) -> Result<(), Fail> {
    // The clock is set to 9 s in step 2, and 1,000 ticks later it is 10 s.
    lists(
        &rt,
        "0002 000C 0003 0018 000003EB
          0102 0000 0003
          0203 0003 0000
          52 02 00 00 00000000 00000000
          4D C8 63 00 00000009 00000007
          57 02 03 00 0000000A 00000000",
        "0 accepted 1\n0 runs 1\n4 ended 1\n4 runs 0\n1001 accepted 2\n1001 runs 2\n1002 ended 2\n1002 runs 0\nleft 0\n",
    )?;
    // With a cycle of one second it fires again.
    lists(
        &rt,
        "0002 000C 0003 0018 000007D3
          0102 0000 0003
          0203 0003 0000
          52 02 00 00 00000000 00000000
          4D 00 00 00 00000009 00000000
          57 02 03 00 0000000A 00000001",
        "0 accepted 1\n0 runs 1\n4 ended 1\n4 runs 0\n1001 accepted 2\n1001 runs 2\n1002 ended 2\n1002 runs 0\n2001 accepted 2\n2001 runs 2\n2002 ended 2\n2002 runs 0\nleft 0\n",
    )
}

#[test]
fn cancels_wakes(rt: HostRuntime) -> Result<(), Fail> {
    lists(
        &rt,
        "0002 000C 0004 0018 000003EB
          0102 0000 0004
          0203 0004 0000
          52 02 00 00 00000000 00000000
          4D 00 00 00 00000009 00000000
          57 02 03 00 0000000A 00000000
          4B 02 03 00 00000009 00000009",
        "0 accepted 1\n0 runs 1\n5 ended 1\n5 runs 0\nleft 0\n",
    )
}

#[test]
fn exits(rt: HostRuntime) -> Result<(), Fail> {
    // Nothing but the letter is looked at.
    lists(
        &rt,
        "0001 000C 0002 0012 00000002
          0102 0000 0002
          58 C8 63 00 00000007 00000007
          44 00 00 00 00000005 00000000",
        "0 accepted 1\n0 runs 1\n1 ended 1\n1 runs 0\nleft 0\n",
    )
}
