//! The bytes of a task file to its plan.
//! This project's own.
ghost use Rattle.toml.specs.View.{table_view};
ghost use Rattle.rcp_base.specs.Answers.{Gives};
ghost use Rattle.task_file.specs.inner.DocumentParts.{document_of_text, parts_of_document};
ghost use Rattle.task_file.specs.TaskFile.{document_of, task_file_result};
ghost use Rattle.task_file.specs.Fault.{is_file_memory};

use crate::fault::FileFault;
use crate::parts::parts_of_sections;
use crate::shape::sections_of;
use rcp_base::MAX_TASK_FILE;
use rcp_model::{Plan, PlanParts};
use std::alloc::Global;
use toml::Table;

/// The plan that a task file's bytes give.
///
/// # Errors
/// The first test that the file fails, in the order of the variants of `FileFault`; `Memory` where memory ran out, which says nothing of the file.
pub fn read_plan(alloc: Global, bytes: &[u8]) -> Result<Plan, FileFault>
    ensures { Gives is_file_memory (λ plan. plan) result (task_file_result bytes.now) }
{
    let parts = read_parts(alloc, bytes)?;
    Ok(Plan::make(parts))
}

#[tactic(auto, unfolding(crate::specs::TaskFile::task_file_result))]
fn read_parts(alloc: Global, bytes: &[u8]) -> Result<PlanParts, FileFault>
    ensures { Gives is_file_memory (λ parts. parts) result (task_file_result bytes.now) }
{
    if bytes.len() as u64 > MAX_TASK_FILE {
        return Err(FileFault::TooLong);
    }
    let document = document_of(alloc, bytes)?;
    parts_of_document(alloc, &document)
}

#[tactic(auto, using(crate::proofs::Utf8Lemmas::text_is_read, crate::proofs::Utf8Lemmas::other_bytes_are_not))]
fn document_of(alloc: Global, bytes: &[u8]) -> Result<Table, FileFault>
    ensures { Gives is_file_memory (λ document. table_view document) result
        (document_of bytes.now) }
{
    match str::from_utf8(bytes) {
        Ok(text) => document_of_text(alloc, text),
        Err(_) => Err(FileFault::NotToml),
    }
}

fn document_of_text(alloc: Global, text: &str) -> Result<Table, FileFault>
    ensures { Gives is_file_memory (λ document. table_view document) result
        (document_of_text text.now) }
{
    match toml::table_from_str(alloc, text) {
        Ok(document) => Ok(document),
        Err(error) => {
            if error.is_memory() {
                return Err(FileFault::Memory);
            }
            Err(FileFault::NotToml)
        }
    }
}

fn parts_of_document(alloc: Global, document: &Table) -> Result<PlanParts, FileFault>
    ensures { Gives is_file_memory (λ parts. parts) result
        (parts_of_document (table_view document.now)) }
{
    match sections_of(alloc, document) {
        Ok(sections) => parts_of_sections(alloc, &sections),
        Err(fault) => Err(fault),
    }
}
