//! Parses the rows of a `_bulk_docs` response that report errors.
ghost use Rattle.std.specs.Prelude.{◌≡◌, IfOk, codes, option_map, string_bytes};
ghost use Rattle.json.specs.Value.{value_view, items_view};
ghost use Rattle.relay_core.specs.Views.{row_error_view, row_errors_view};
ghost use Rattle.relay_responses.specs.Read.{text_at, some_items};
ghost use Rattle.relay_responses.specs.Logs.{text_or_empty, row_error_in, row_errors_in};

use crate::values::{copied, items_of, text_at};
use json::Value;
use relay_core::RowError;
use std::alloc::{AllocError, Global};

/// Returns the reason of an error, or an empty string if the response gives no reason.
fn reason_of(alloc: Global, value: &Value<'_>) -> Result<String, AllocError>
    ensures { IfOk result (λ s. string_bytes s ≡ text_or_empty (text_at (codes "reason") (value_view value.now))) }
{
    match text_at(value, "reason") {
        Some(reason) => String::from_str(alloc, reason),
        None => Ok(String::new(alloc)),
    }
}

/// Returns the error that a row reports, or `None` if the row reports no error.
fn row_error_of(alloc: Global, value: &Value<'_>) -> Result<Option<RowError>, AllocError>
    ensures { IfOk result (λ o. option_map row_error_view o ≡ row_error_in (value_view value.now)) }
{
    let Some(id) = text_at(value, "id") else {
        return Ok(None);
    };
    let Some(error) = text_at(value, "error") else {
        return Ok(None);
    };
    let rev = copied(alloc, text_at(value, "rev"))?;
    let reason = reason_of(alloc, value)?;
    let id = String::from_str(alloc, id)?;
    let error = String::from_str(alloc, error)?;
    Ok(Some(RowError {
        id,
        rev,
        error,
        reason,
    }))
}

/// Returns the errors that the rows of a JSON list report.
fn errors_of(alloc: Global, items: &Vec<Value<'_>>) -> Result<Vec<RowError>, AllocError>
    ensures { IfOk result (λ v. row_errors_view v.items ≡ some_items row_error_in (items_view items.now.items)) }
{
    let mut errors = Vec::new(alloc);
    for item in items {
        if let Some(error) = row_error_of(alloc, item)? {
            errors.push(error)?;
        }
    }
    Ok(errors)
}

/// Returns the errors that the rows of a JSON value report, or `None` if the value is not a list.
pub(crate) fn row_errors_of(
    alloc: Global,
    value: &Value<'_>,
) -> Result<Option<Vec<RowError>>, AllocError>
    ensures { IfOk result (λ o. option_map (λ v. row_errors_view v.items) o ≡ row_errors_in (value_view value.now)) }
{
    match items_of(value) {
        Some(items) => {
            let errors = errors_of(alloc, items)?;
            Ok(Some(errors))
        }
        None => Ok(None),
    }
}
