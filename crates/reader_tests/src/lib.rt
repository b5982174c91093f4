//! Tests of the readers of the task language, of task files and of journals, and of the generator of journals, with values
//! that were worked by hand from the rules. Lines of text are the cases.
//! This project's own.
#![tactic(auto)]

#[cfg(test)]
mod cases;
#[cfg(test)]
mod formats;
#[cfg(test)]
mod generator;
#[cfg(test)]
mod language;
#[cfg(test)]
mod numbers;
#[cfg(test)]
mod task_files;
