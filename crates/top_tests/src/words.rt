//! Words that are no form, and the order in which files are read.
//! This project's own.
use crate::call::check;
use crate::case::check_all;
use crate::files::TWO_FRAMES;
use example_plans::COUNTER;
use std::test::Fail;

const USAGE: &str =
    "usage: ideal FILE JOURNAL | check FILE | thin FILE | replay FILE JOURNAL [rs|ds|da] | events FILE JOURNAL first|last | summary FILE JOURNAL | gen FILE NUMBER FRAMES\n";

// The first line has no word.
const NO_FORMS: &str = "
ideal
ideal T
ideal T J J
IDEAL T J
T J ideal
check
check T J
CHECK T
thin
thin T J
replay T
replay T J xs
replay T J RS
replay T J rs rs
replay T J first
ideal T J rs
events T J
events T first
events T J da
events T J FIRST
events T J first first
summary T
summary T J da
summary T J J
gen T
gen T 7
gen T 7 4 4
gen T 18446744073709551616 4
gen T 7 0
gen T 7 1000001
gen T -7 4
gen T +7 4
gen T 7 +4
gen T 7 4.0
gen T x 4
GEN T 7 4
";

// A task file comes before its pattern, and that before the journal.
const IN_TURN: &str = r#"6 counter ideal X Y
unreadable: X

3 counter ideal B Y
task file refused: E02

6 counter ideal T Y
unreadable: Y

5 counter ideal T T
journal refused: J03

3 counter check T
| ["n"] => []
| compute = 30000 => compute = 0
task file refused: E10 rule 1

6 counter check X
unreadable: X

6 counter thin X
unreadable: X

6 counter replay X Y rs
unreadable: X

3 counter replay B Y rs
task file refused: E02

6 counter replay T Y rs
unreadable: Y

5 counter replay T T rs
journal refused: J03

6 counter summary X Y
unreadable: X

5 counter summary T T
journal refused: J03

6 counter events X Y first
unreadable: X

3 counter events B Y last
task file refused: E02

6 counter events T Y first
unreadable: Y

5 counter events T T last
journal refused: J03"#;

#[test]
fn words_that_are_no_form_are_refused(rt: HostRuntime) -> Result<(), Fail> {
    let files = (COUNTER.as_bytes(), TWO_FRAMES.as_bytes());
    for line in NO_FORMS.lines() {
        check(&rt, rt.alloc(), line, files, ("2", USAGE))?;
    }
    Ok(())
}

#[test]
fn files_are_read_in_turn(rt: HostRuntime) -> Result<(), Fail> {
    check_all(&rt, rt.alloc(), IN_TURN)
}
