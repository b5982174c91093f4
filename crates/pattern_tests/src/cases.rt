//! Cases as lines of text, each of which ends in ` => ` and the answer that is due.
//! This project's own.
use std::alloc::Global;
use std::process::Abort;
use std::test::Fail;

/// What stands before the last arrow, and what is due.
pub fn parted(line: &str) -> (&str, &str) {
    line.rsplit_once(" => ").unwrap_or((line, ""))
}

/// What stands before the first colon, and what after it.
pub fn colon_parted(text: &str) -> (&str, &str) {
    text.split_once(':').unwrap_or((text, ""))
}

/// The case of this line has this answer.
pub fn check_answer(rt: &impl Abort, line: &str, answer: &str, due: &str) {
    assert_eq!(rt; answer, due, "{line}");
}

/// Each line has the answer that this function gives of what stands before its last arrow.
pub fn check_lines<F: Fn(Global, &str) -> Result<String, Fail>>(
    rt: &impl Abort,
    alloc: Global,
    lines: &str,
    answer_of: F,
) -> Result<(), Fail>
    requires { F.IsAlwaysCallable answer_of }
{
    for line in lines.lines() {
        let (case, due) = parted(line);
        let answer = answer_of(alloc, case)?;
        check_answer(rt, line, answer.as_str(), due);
    }
    Ok(())
}

/// The number that a text is.
pub fn number(text: &str) -> Result<u32, Fail> {
    Ok(text.parse().map_err(|_| "no number")?)
}
