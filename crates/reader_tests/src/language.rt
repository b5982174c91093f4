//! What the rules of the language say of some texts, worked by hand.
//! This project's own.
use crate::cases::{check_answer, check_lines, parted};
use rcp_base::Name;
use rcp_model::{Expr, Task};
use std::alloc::{AllocError, Global};
use std::process::Abort;
use std::str;
use std::test::Fail;
use task_lang::{LangFault, parse_body, parse_expr, print_body};

// A name of 32 bytes.
const LONGEST: &str = "a2345678901234567890123456789012";

// Expressions over the sensors `s`, `both` and `LONGEST` and the cells `c`, `both` and `n_2`, and their trees.
const TREES: &str = "s => Sensor(0)
both => Sensor(1)
a2345678901234567890123456789012 => Sensor(2)
c => Cell(0)
n_2 => Cell(2)
7 => Number(7)
007 => Number(7)
9223372036854775807 => Number(9223372036854775807)
0009223372036854775807 => Number(9223372036854775807)
-c => Neg([Cell(0)])
--1 => Neg([Neg([Number(1)])])
1 - -2 => Two(Sub, [Number(1)], [Neg([Number(2)])])
1--2 => Two(Sub, [Number(1)], [Neg([Number(2)])])
-1 * 2 => Two(Mul, [Neg([Number(1)])], [Number(2)])
1 + 2 => Two(Add, [Number(1)], [Number(2)])
1-2-3 => Two(Sub, [Two(Sub, [Number(1)], [Number(2)])], [Number(3)])
1 - (2 - 3) => Two(Sub, [Number(1)], [Two(Sub, [Number(2)], [Number(3)])])
8 / 4 % 3 * 2 => Two(Mul, [Two(Rem, [Two(Div, [Number(8)], [Number(4)])], [Number(3)])], [Number(2)])
1 + 2 * 3 => Two(Add, [Number(1)], [Two(Mul, [Number(2)], [Number(3)])])
(1 + 2) * 3 => Two(Mul, [Two(Add, [Number(1)], [Number(2)])], [Number(3)])
1 == 2 => Two(Eq, [Number(1)], [Number(2)])
1 != 2 => Two(Ne, [Number(1)], [Number(2)])
1 < 2 => Two(Lt, [Number(1)], [Number(2)])
1 <= 2 => Two(Le, [Number(1)], [Number(2)])
1 > 2 => Two(Gt, [Number(1)], [Number(2)])
1>=2 => Two(Ge, [Number(1)], [Number(2)])
1 + 2 < 3 - 4 => Two(Lt, [Two(Add, [Number(1)], [Number(2)])], [Two(Sub, [Number(3)], [Number(4)])])
(1 < 2) == 3 => Two(Eq, [Two(Lt, [Number(1)], [Number(2)])], [Number(3)])
not c => Not([Cell(0)])
not not c => Not([Not([Cell(0)])])
not 1 < 2 + 3 => Not([Two(Lt, [Number(1)], [Two(Add, [Number(2)], [Number(3)])])])
not 1 and 2 => Two(And, [Not([Number(1)])], [Number(2)])
1 and 2 and 3 => Two(And, [Two(And, [Number(1)], [Number(2)])], [Number(3)])
1 or 2 or 3 => Two(Or, [Two(Or, [Number(1)], [Number(2)])], [Number(3)])
1 or 2 and 3 => Two(Or, [Number(1)], [Two(And, [Number(2)], [Number(3)])])
abs(1) => Abs([Number(1)])
abs ( 1 or 2 ) => Abs([Two(Or, [Number(1)], [Number(2)])])
min(1, 2) => Two(Min, [Number(1)], [Number(2)])
max(1, 2) => Two(Max, [Number(1)], [Number(2)])
clamp(1, 2, 3) => Clamp([Number(1)], [Number(2)], [Number(3)])
if(c, not 2, -3) => If([Cell(0)], [Not([Number(2)])], [Neg([Number(3)])])
((1)) => Number(1)
";

// The same with texts that are no expressions.
const NO_EXPRESSIONS: &str = "+ 1 => Syntax 0
1 + => Syntax 3
1 2 => Syntax 2
1 + * 2 => Syntax 4
() => Syntax 1
(1 => Syntax 2
(1)) => Syntax 3
1; => Syntax 1
1 < 2 < 3 => Syntax 6
1 == 2 != 3 => Syntax 7
1 === 2 => Syntax 4
1 = 2 => Syntax 2
1 := 2 => Syntax 2
1 not 2 => Syntax 2
1 + not 2 => Syntax 4
1 < not 2 => Syntax 4
- not 1 => Syntax 2
abs 1 => Syntax 4
abs() => Syntax 4
abs(1, 2) => Syntax 5
min(1) => Syntax 5
min(1, 2, 3) => Syntax 8
max(1, 2 => Syntax 8
clamp(1, 2) => Syntax 10
if(1, 2) => Syntax 7
let => Syntax 0
and => Syntax 0
or => Syntax 0
not => Syntax 3
abs => Syntax 3
min => Syntax 3
max => Syntax 3
clamp => Syntax 5
if => Syntax 2
9223372036854775808 => Syntax 0
-9223372036854775808 => Syntax 1
q + 9223372036854775808 => Syntax 4
a23456789012345678901234567890123 => Syntax 0
q + a23456789012345678901234567890123 => Syntax 4
1c => Syntax 1
_ => Syntax 0
_c => Syntax 0
cN => Syntax 1
N => Syntax 0
! => Syntax 0
1 ! = 2 => Syntax 2
: => Syntax 0
. => Syntax 0
1.5 => Syntax 1
é => Syntax 0
1 + é => Syntax 4
q + => Syntax 3
";

// The same with names that stand for nothing.
const UNKNOWN: &str = "q => UnknownName 0
c_ => UnknownName 0
lets => UnknownName 0
notc => UnknownName 0
c + q * r => UnknownName 4
q + r => UnknownName 0
abs(-q) => UnknownName 5
";

// Bodies over the sensor `s` and the cells `k` and `n`, and their rows.
const BODIES: &str = "n := n + 1; => 1 = Two(Add, [Cell(1)], [Number(1)]);
n:=1;k:=n; => 1 = Number(1); 0 = Cell(1);
let x = s; n := x; => x = Sensor(0); 1 = Let(0);
k := 1; let x = k; n := x; => x = Cell(0); 0 = Number(1); 1 = Let(0);
let x = 1; let y = x; k := y; n := x == y; => x = Number(1); y = Let(0); 0 = Let(1); 1 = Two(Eq, [Let(0)], [Let(1)]);
let x = 1; => x = Number(1);
";

// The same with texts that are no bodies.
const NO_BODIES: &str = "n := 9223372036854775808; => Syntax 5
n := n + 1 => Syntax 10
n = n; => Syntax 2
n == n; => Syntax 2
n : = n; => Syntax 2
n := ; => Syntax 5
n := 1;; => Syntax 7
n := 1 2; => Syntax 7
n := (1; => Syntax 7
1 := n; => Syntax 0
n => Syntax 1
n := 1; k => Syntax 9
q := 1; n := => Syntax 12
let => Syntax 3
let x => Syntax 5
let x := 1; => Syntax 6
let x = 1 => Syntax 9
let x = 1, => Syntax 9
let 1 = 2; => Syntax 4
let let x = 1; => Syntax 4
x let = 1; => Syntax 2
";

// The same with names that stand where they may not.
const WRONG_NAMES: &str = "let x = x; => UnknownName 8
let x = y; => UnknownName 8
let s = y; => BadTarget 4
let n = 1; => BadTarget 4
let x = 1; let x = y; => BadTarget 15
n := q; => UnknownName 5
q := r; => BadTarget 0
s := 1; => BadTarget 0
let x = 1; x := 2; => BadTarget 11
n := 1; n := q; => BadTarget 8
n := x; let x = 1; => UnknownName 5
n := 1; let y = z; => UnknownName 16
let x = 1; let y = x; n := y + z; => UnknownName 31
";

// Bodies over the sensor `s` and the cells `k` and `n`, and how they are printed.
const PRINTED: &str = "n:=1-(2-3); => n := 1 - (2 - 3);
n := (1-2)-3; => n := 1 - 2 - 3;
n := (1 + 2)*3; => n := (1 + 2) * 3;
n := 1 + (2*3); => n := 1 + 2 * 3;
n := 8 / (4 % 3); => n := 8 / (4 % 3);
n := (8 / 4) % 3; => n := 8 / 4 % 3;
n := (1 < 2) == 3; => n := (1 < 2) == 3;
n := 3 != (1 >= 2); => n := 3 != (1 >= 2);
n := (1 + 2) <= (3 - 4); => n := 1 + 2 <= 3 - 4;
n := (1 > 2) + 3; => n := (1 > 2) + 3;
n := not (1 < 2); => n := not 1 < 2;
n := not (1 and 2); => n := not (1 and 2);
n := not(not(1)); => n := not not 1;
n := (not 1) and 2; => n := not 1 and 2;
n := (not 1) == 2; => n := (not 1) == 2;
n := (1 or 2) or 3; => n := 1 or 2 or 3;
n := 1 or (2 or 3); => n := 1 or (2 or 3);
n := (1 or 2) and 3; => n := (1 or 2) and 3;
n := 1 or (2 and 3); => n := 1 or 2 and 3;
n := 1 and (2 and 3); => n := 1 and (2 and 3);
n := -(1 + 2); => n := -(1 + 2);
n := -(-1); => n := --1;
n := 1--2; => n := 1 - -2;
n := (-1)*2; => n := -1 * 2;
n := -(1*2); => n := -(1 * 2);
n := -(abs(k)); => n := -abs(k);
n := -(not 1); => n := -(not 1);
n := abs((1 or 2)); => n := abs(1 or 2);
n := min((1),2); => n := min(1, 2);
n := max(1,2) * 3; => n := max(1, 2) * 3;
n := clamp(1,(2),s); => n := clamp(1, 2, s);
n := if(k,not 1,(-2)); => n := if(k, not 1, -2);
n := 007; => n := 7;
n := 9223372036854775807; => n := 9223372036854775807;
k := 1; let x = s; n := x; => let x = s; k := 1; n := x;
let x = 1; n := 2; let y = x; => let x = 1; let y = x; n := 2;
let x = 1; => let x = 1;
";

// Bodies over the same names with reserved words in the place of names.
const RESERVED: &str = "let let = 1; => Syntax 4
let and = 1; => Syntax 4
let or = 1; => Syntax 4
let not = 1; => Syntax 4
let abs = 1; => Syntax 4
let min = 1; => Syntax 4
let max = 1; => Syntax 4
let clamp = 1; => Syntax 4
let if = 1; => Syntax 4
let := 1; => Syntax 4
and := 1; => Syntax 0
or := 1; => Syntax 0
not := 1; => Syntax 0
abs := 1; => Syntax 0
min := 1; => Syntax 0
max := 1; => Syntax 0
clamp := 1; => Syntax 0
if := 1; => Syntax 0
";

// Expressions with blanks, which part tokens, and a fault at the end stands behind them. No other byte is a blank. Bars stand
// between the cases.
const BLANKS: &str = "\t1 => Number(1)|\r\n1  => Number(1)|1\n => Number(1)|1\r => Number(1)|\
\x20=> Syntax 0|\x20\t\n => Syntax 3|1 + \t => Syntax 5|q +\r\n => Syntax 5|\
\0 => Syntax 0|\u{1} => Syntax 0|\u{b}1 => Syntax 0|\u{c}1 => Syntax 0|\u{7f} => Syntax 0|\u{a0}1 => Syntax 0";

// The same for bodies.
const BLANK_BODIES: &str =
    "\x20=> Syntax 0|n :=  \n => Syntax 7|\nn\t:=\r\n 1 ;  => 1 = Number(1);";

// What encloses a token, as often as may be and once more, and what a prefix encloses: so many times the first part, the second
// part, and as often the third. What is read is not told, only that it is.
const ENCLOSED: &str = "64|(|1|) => read
65|(|1|) => Syntax 64
64|-|1| => read
65|-|1| => Syntax 64
64|not |1| => read
65|not |1| => Syntax 256
64|abs(|1|) => read
65|abs(|1|) => Syntax 256
64|-|1 + (2)| => read
64|-|(1)| => Syntax 64
64|-|abs(1)| => Syntax 64
64|-|abs| => Syntax 64
64|-|| => Syntax 64
64|not |1 and (2)| => read
64|not |1 < (2)| => Syntax 260
64|not |-1| => Syntax 256
64|not |min(1, 2)| => Syntax 256
";

fn name(text: &str) -> Result<Name, Fail> {
    Ok(Name::read(text).ok_or("no name")?)
}

// A tree, with its operands in square brackets.
fn tree_shown(alloc: Global, tree: &Expr) -> Result<String, AllocError> {
    let shown = format!(in alloc; "{tree:?}")?;
    let opened = shown.replace(alloc, "Boxed { inner: ", "[")?;
    opened.replace(alloc, " }", "]")
}

fn fault_shown(alloc: Global, fault: LangFault) -> Result<String, AllocError> {
    match fault {
        LangFault::Syntax { byte } => format!(in alloc; "Syntax {byte}"),
        LangFault::UnknownName { byte } => format!(in alloc; "UnknownName {byte}"),
        LangFault::BadTarget { byte } => format!(in alloc; "BadTarget {byte}"),
        LangFault::Memory => format!(in alloc; "Memory"),
    }
}

fn put_lets(alloc: Global, task: &Task, shown: &mut String) -> Result<(), Fail> {
    for row in task.lets.as_slice() {
        let value = tree_shown(alloc, &row.value)?;
        shown.push_str(str::from_utf8(row.name.bytes())?)?;
        shown.push_str(" = ")?;
        shown.push_str(value.as_str())?;
        shown.push_str("; ")?;
    }
    Ok(())
}

fn put_sets(alloc: Global, task: &Task, shown: &mut String) -> Result<(), Fail> {
    for row in task.sets.as_slice() {
        let value = tree_shown(alloc, &row.value)?;
        let text = format!(in alloc; "{} = {}; ", row.cell, value.as_str())?;
        shown.push_str(text.as_str())?;
    }
    Ok(())
}

// The lets of a task by their names and values, then its sets by their cells and values.
fn task_shown(alloc: Global, task: &Task) -> Result<String, Fail> {
    let mut shown = String::new(alloc);
    put_lets(alloc, task, &mut shown)?;
    put_sets(alloc, task, &mut shown)?;
    Ok(String::from_str(alloc, shown.as_str().trim_end())?)
}

fn read_expr(alloc: Global, text: &str) -> Result<Result<Expr, LangFault>, Fail> {
    if text.len() > 16384 {
        return Err(Fail::new("a long text"));
    }
    let sensors = [name("s")?, name("both")?, name(LONGEST)?];
    let cells = [name("c")?, name("both")?, name("n_2")?];
    Ok(parse_expr(alloc, text, &sensors, &cells))
}

fn expr_answer(alloc: Global, text: &str) -> Result<String, Fail> {
    match read_expr(alloc, text)? {
        Ok(tree) => Ok(tree_shown(alloc, &tree)?),
        Err(fault) => Ok(fault_shown(alloc, fault)?),
    }
}

fn read_body(alloc: Global, text: &str) -> Result<Result<Task, LangFault>, Fail> {
    if text.len() > 16384 {
        return Err(Fail::new("a long text"));
    }
    let sensors = [name("s")?];
    let cells = [name("k")?, name("n")?];
    Ok(parse_body(alloc, name("t")?, text, &sensors, &cells))
}

fn body_answer(alloc: Global, text: &str) -> Result<String, Fail> {
    match read_body(alloc, text)? {
        Ok(task) => task_shown(alloc, &task),
        Err(fault) => Ok(fault_shown(alloc, fault)?),
    }
}

// What is printed of a task over the names of bodies.
fn task_printed(alloc: Global, task: &Task) -> Result<String, Fail> {
    let sensors = [name("s")?];
    let cells = [name("k")?, name("n")?];
    let bytes = print_body(alloc, task, &sensors, &cells)?;
    Ok(String::from_str(alloc, str::from_utf8(bytes.as_slice())?)?)
}

// What is printed of a body that is read.
fn printed(alloc: Global, text: &str) -> Result<String, Fail> {
    let task = read_body(alloc, text)??;
    task_printed(alloc, &task)
}

fn put_often(text: &mut String, part: &str, times: u32) -> Result<(), AllocError> {
    for _time in 0..times {
        text.push_str(part)?;
    }
    Ok(())
}

fn bar_parted(text: &str) -> (&str, &str) {
    text.split_once('|').unwrap_or((text, ""))
}

fn enclosed(alloc: Global, case: &str) -> Result<String, Fail> {
    let (times, parts) = bar_parted(case);
    let (open, parts) = bar_parted(parts);
    let (inner, close) = bar_parted(parts);
    let times = times.parse().map_err(|_| "no number")?;
    let mut text = String::new(alloc);
    put_often(&mut text, open, times)?;
    text.push_str(inner)?;
    put_often(&mut text, close, times)?;
    Ok(text)
}

// The fault alone, if it is one.
fn outcome(answer: &str) -> &str {
    if answer.starts_with("Syntax") {
        answer
    } else {
        "read"
    }
}

fn enclosed_answer(alloc: Global, case: &str) -> Result<String, Fail> {
    let text = enclosed(alloc, case)?;
    let answer = expr_answer(alloc, text.as_str())?;
    Ok(String::from_str(alloc, outcome(answer.as_str()))?)
}

fn check_message(rt: &impl Abort, alloc: Global, fault: LangFault, due: &str) -> Result<(), Fail> {
    let text = format!(in alloc; "{fault}")?;
    check_answer(rt, due, text.as_str(), due);
    Ok(())
}

#[test]
fn reads_expressions(rt: HostRuntime) -> Result<(), Fail> {
    check_lines(
        &rt,
        rt.alloc(),
        TREES,
        |alloc, text| expr_answer(alloc, text),
    )
}

#[test]
fn tells_where_an_expression_goes_wrong(rt: HostRuntime) -> Result<(), Fail> {
    check_lines(&rt, rt.alloc(), NO_EXPRESSIONS, |alloc, text| {
        expr_answer(alloc, text)
    })
}

#[test]
fn tells_names_that_stand_for_nothing(rt: HostRuntime) -> Result<(), Fail> {
    check_lines(
        &rt,
        rt.alloc(),
        UNKNOWN,
        |alloc, text| expr_answer(alloc, text),
    )
}

#[test]
fn reads_bodies(rt: HostRuntime) -> Result<(), Fail> {
    check_lines(
        &rt,
        rt.alloc(),
        BODIES,
        |alloc, text| body_answer(alloc, text),
    )
}

#[test]
fn tells_where_a_body_goes_wrong(rt: HostRuntime) -> Result<(), Fail> {
    check_lines(
        &rt,
        rt.alloc(),
        NO_BODIES,
        |alloc, text| body_answer(alloc, text),
    )
}

#[test]
fn tells_names_that_stand_where_they_may_not(rt: HostRuntime) -> Result<(), Fail> {
    check_lines(
        &rt,
        rt.alloc(),
        WRONG_NAMES,
        |alloc, text| body_answer(alloc, text),
    )
}

#[test]
fn reserved_words_are_no_names(rt: HostRuntime) -> Result<(), Fail> {
    check_lines(
        &rt,
        rt.alloc(),
        RESERVED,
        |alloc, text| body_answer(alloc, text),
    )
}

#[test]
fn blanks_are_four_bytes(rt: HostRuntime) -> Result<(), Fail> {
    for line in BLANKS.split('|') {
        let (case, due) = parted(line);
        let answer = expr_answer(rt.alloc(), case)?;
        check_answer(&rt, line, answer.as_str(), due);
    }
    Ok(())
}

#[test]
fn bodies_have_the_same_blanks(rt: HostRuntime) -> Result<(), Fail> {
    for line in BLANK_BODIES.split('|') {
        let (case, due) = parted(line);
        let answer = body_answer(rt.alloc(), case)?;
        check_answer(&rt, line, answer.as_str(), due);
    }
    Ok(())
}

#[test]
fn sixty_four_enclose_a_token(rt: HostRuntime) -> Result<(), Fail> {
    check_lines(&rt, rt.alloc(), ENCLOSED, |alloc, text| {
        enclosed_answer(alloc, text)
    })
}

#[test]
fn faults_have_messages(rt: HostRuntime) -> Result<(), Fail> {
    let alloc = rt.alloc();
    let fault = LangFault::Syntax { byte: 5 };
    check_message(&rt, alloc, fault, "a fault of syntax at byte 5")?;
    let fault = LangFault::UnknownName { byte: 0 };
    check_message(&rt, alloc, fault, "an unknown name at byte 0")?;
    let fault = LangFault::BadTarget { byte: 70000 };
    check_message(
        &rt,
        alloc,
        fault,
        "a name that may not be given a value at byte 70000",
    )?;
    check_message(&rt, alloc, LangFault::Memory, "memory ran out")
}

#[test]
fn prints_few_brackets_and_lets_first(rt: HostRuntime) -> Result<(), Fail> {
    check_lines(&rt, rt.alloc(), PRINTED, |alloc, text| printed(alloc, text))
}

// What is printed is printed so again.
#[test]
fn prints_its_own_text_unchanged(rt: HostRuntime) -> Result<(), Fail> {
    for line in PRINTED.lines() {
        let (_, due) = parted(line);
        let text = printed(rt.alloc(), due)?;
        check_answer(&rt, line, text.as_str(), due);
    }
    Ok(())
}
