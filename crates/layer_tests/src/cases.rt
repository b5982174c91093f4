//! Worked cases as blocks of lines.
//! This project's own.
use example_plans::{COUNTER, MOTOR};
use rcp_model::Plan;
use std::alloc::Global;
use std::test::Fail;
use task_file::read_plan;

/// A plan's file, its recovery length, a journal, and what is shown after each frame.
#[derive(Drop)]
pub struct Case {
    file: String,
    pub length: u32,
    pub journal: String,
    pub due: String,
}

impl Case {
    /// The case of a block. Its first line names the plan, a line `: ROW` is a row of the journal, and the others are shown.
    pub fn read(alloc: Global, block: &str) -> Result<Case, Fail> {
        let (head, rest) = block.split_once('\n').ok_or("no rows")?;
        let (file, length) = file_named(alloc, head)?;
        let mut journal = String::from_str(alloc, "frame,kind,a,b,c,d\n")?;
        let mut due = String::new(alloc);
        for line in rest.lines() {
            match line.strip_prefix(": ") {
                Some(row) => put_line(&mut journal, row)?,
                None => put_line(&mut due, line)?,
            }
        }
        Ok(Case {
            file,
            length,
            journal,
            due,
        })
    }

    /// Its plan.
    pub fn plan(&self, alloc: Global) -> Result<Plan, Fail> {
        Ok(read_plan(alloc, self.file.as_bytes())?)
    }
}

fn put_line(text: &mut String, line: &str) -> Result<(), Fail> {
    text.push_str(line)?;
    text.push_str("\n")?;
    Ok(())
}

// The counter voted by the median, over so many replicas.
fn median_counter(alloc: Global, replicas: &str) -> Result<String, Fail> {
    let file = COUNTER.replace(alloc, "replicas = 3", replicas)?;
    let file = file
        .as_str()
        .replace(alloc, "initial = 0 }", "initial = 0, vote = \"median\" }")?;
    Ok(format!(in alloc; "format = 2\n{}", file.as_str())?)
}

// The file of this name and its recovery length.
fn file_named(alloc: Global, name: &str) -> Result<(String, u32), Fail> {
    match name {
        "motor" => Ok((String::from_str(alloc, MOTOR)?, 3)),
        "counter" => Ok((String::from_str(alloc, COUNTER)?, 1)),
        "two counters" => Ok((COUNTER.replace(alloc, "replicas = 3", "replicas = 2")?, 1)),
        "two by the median" => Ok((median_counter(alloc, "replicas = 2")?, 1)),
        "three by the median" => Ok((median_counter(alloc, "replicas = 3")?, 1)),
        _ => Err("no such plan".into()),
    }
}
