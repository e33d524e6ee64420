//! The command `inspect`, over any store.

ghost use Rattle.std.specs.Prelude.{◌≡◌, IfOk, None, string_bytes, true};
ghost use Rattle.store.specs.Views.{view_of};
ghost use Rattle.inspect_files.specs.declared.inspection.Inspection.{Inspection as LogInspection};
ghost use Rattle.inspect_files.specs.Inspections.{IsInspectionIn};
ghost use Rattle.inspect_command.specs.Documents.{IsDocument, IsDocumentIn};
ghost use Rattle.inspect_command.specs.Statuses.{IsCleanIn, IsStatusOf};

use crate::json::inspection_document;
use crate::remarks::{Remark, remarks_on, status_of};
use crate::report::inspection_text;
use answers::{Answer, Fault, InspectRequest, Status};
use inspect_files::{Inspection, inspect_log};
use std::alloc::{AllocError, Global};
use store::Store;

// Returns the text that is printed.
fn printed_text(
    alloc: Global,
    json: bool,
    inspection: &Inspection,
    remarks: &[Remark],
) -> Result<String, AllocError>
    ensures { IfOk result (λ text. json ≡ true → IsDocument inspection.now remarks.now (string_bytes text)) }
{
    if json {
        inspection_document(alloc, inspection, remarks)
    } else {
        inspection_text(alloc, inspection, remarks)
    }
}

fn execute<S: Store>(alloc: Global, store: &S, request: InspectRequest<'_>) -> Result<Answer, Fault>
    ensures status { IfOk result (λ answer. (i : LogInspection) × IsInspectionIn (view_of (S.holds store.now)) request.entry.dir.now request.entry.min_valid i × IsStatusOf i answer.status) }
    ensures clean { IfOk result (λ answer. answer.status ≡ Status.Done → IsCleanIn (view_of (S.holds store.now)) request.entry.dir.now request.entry.min_valid) }
    ensures document { IfOk result (λ answer. request.entry.json ≡ true → IsDocumentIn (view_of (S.holds store.now)) request.entry.dir.now request.entry.min_valid (string_bytes answer.printed)) }
{
    let InspectRequest {
        dir,
        json,
        min_valid,
    } = request;
    let inspection = inspect_log(alloc, store, dir, min_valid)?;
    let remarks = remarks_on(alloc, &inspection)?;
    let text = printed_text(alloc, json, &inspection, &remarks)?;
    Ok(Answer {
        printed: text,
        fault: None,
        cause: None,
        status: status_of(&remarks),
    })
}

/// Carries out a request, which changes nothing in the store. The status is `Done` only if each file of the log was read to its end and
/// there is nothing to remark; if no fault is reported, it is `Damaged` otherwise. The JSON document has the figures of each file and their sums.
pub fn carry_out_inspect<S: Store>(alloc: Global, store: &S, request: InspectRequest<'_>) -> Answer
    ensures clean { result.status ≡ Status.Done → IsCleanIn (view_of (S.holds store.now)) request.entry.dir.now request.entry.min_valid }
    ensures status { result.fault ≡ None → (i : LogInspection) × IsInspectionIn (view_of (S.holds store.now)) request.entry.dir.now request.entry.min_valid i × IsStatusOf i result.status }
    ensures document { request.entry.json ≡ true → result.fault ≡ None → IsDocumentIn (view_of (S.holds store.now)) request.entry.dir.now request.entry.min_valid (string_bytes result.printed) }
{
    match execute(alloc, store, request) {
        Ok(answer) => answer,
        Err(fault) => Answer::failed(alloc, fault),
    }
}
