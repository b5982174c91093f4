//! `summary FILE JOURNAL`: what a run amounts to, with digests that a few lines in another language worked out.
//! This project's own.
use crate::case::check_all;
use crate::outside::lines_are_writes;
use example_plans::COUNTER;
use std::test::Fail;

// A wrong cell that recovers; two replicas that are down, so that a vote has no value; commands below 0; two actuators, whose
// votes come in their order; and frames without the guard, in which replicas work nevertheless.
const SUMMARIES: &str = "0 motor summary T J
: 0,sensor,cmd,10,,
: 0,cell,2,sum,-77,
: 4,end,,,,
recovery 3
frames 4
guarded 4
votes 4
none 0
working 9
digest 308000

0 motor summary T J
: 0,sensor,cmd,10,,
: 1,down,0,,,
: 1,down,1,,,
: 3,end,,,,
recovery 3
frames 3
guarded 1
votes 2
none 1
working 5
digest 9620

0 motor summary T J
: 0,sensor,cmd,-10,,
: 4,end,,,,
recovery 3
frames 4
guarded 4
votes 4
none 0
working 12
digest 18446744073709243616

0 counter summary T J
| value = \"n\" }, => value = \"n\" }, { name = \"twice\", value = \"n * 2\" },
: 2,end,,,,
recovery 1
frames 2
guarded 2
votes 4
none 0
working 6
digest 31779

0 counter summary T J
| replicas = 3 => replicas = 2
: 0,cell,1,n,5,
: 2,end,,,,
recovery 1
frames 2
guarded 0
votes 1
none 1
working 3
digest 31

4 counter summary T J
| [\"n\"] => []
: 2,end,,,,
pattern refused: cycle 0:n";

const QUIET: &[u8] = b"frame,kind,a,b,c,d\n2,end,,,,\n";

const QUIET_SUMMARY: &str = "recovery 1
frames 2
guarded 2
votes 2
none 0
working 6
digest 33
";

#[test]
fn runs_are_summed_up(rt: HostRuntime) -> Result<(), Fail> {
    check_all(&rt, rt.alloc(), SUMMARIES)
}

#[test]
fn each_line_of_a_summary_is_one_write(rt: HostRuntime) -> Result<(), Fail> {
    let files = (COUNTER.as_bytes(), QUIET);
    lines_are_writes(&rt, rt.alloc(), "summary T J", files, QUIET_SUMMARY)
}
