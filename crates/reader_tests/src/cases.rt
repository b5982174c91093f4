//! Cases as lines of text, each of which ends in ` => ` and the answer that is due.
//! This project's own.
use std::alloc::Global;
use std::process::Abort;
use std::test::Fail;

/// What stands before the first arrow, and what after it.
pub fn halves(text: &str) -> (&str, &str) {
    text.split_once(" => ").unwrap_or((text, ""))
}

/// What stands before the last arrow, and what is due.
pub fn parted(line: &str) -> (&str, &str) {
    line.rsplit_once(" => ").unwrap_or((line, ""))
}

/// The case of this line has this answer.
pub fn check_answer(rt: &impl Abort, line: &str, answer: &str, due: &str) {
    assert_eq!(rt; answer, due, "{line}");
}

/// Each line has the answer that this function gives of what stands before its last arrow.
pub fn check_lines<F: Fn(Global, &str) -> Result<String, Fail>>(
    rt: &impl Abort,
    alloc: Global,
    lines: &str,
    answer_of: F,
) -> Result<(), Fail>
    requires { F.IsAlwaysCallable answer_of }
{
    for line in lines.lines() {
        let (case, due) = parted(line);
        let answer = answer_of(alloc, case)?;
        check_answer(rt, line, answer.as_str(), due);
    }
    Ok(())
}

/// A text with a part in place of another.
pub fn replaced(alloc: Global, text: &str, old: &str, new: &str) -> Result<String, Fail> {
    let (before, after) = text.split_once(old).ok_or("no such part")?;
    Ok(format!(in alloc; "{before}{new}{after}")?)
}
