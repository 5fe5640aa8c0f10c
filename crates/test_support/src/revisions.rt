//! Conversions of revisions and other values from and to strings. A conversion returns `None` if the string is invalid
//! or an allocation fails.
use rev_core::Rev;
use std::alloc::Global;
use std::fmt::Debug;

/// Parses a revision.
pub fn rev(text: &str) -> Option<Rev> {
    Rev::parse(text.as_bytes()).ok()
}

/// Formats a value with the trait `Debug`.
pub fn shown<T: Debug>(alloc: Global, value: &T) -> Option<String> {
    format!(in alloc; "{value:?}").ok()
}

/// Formats a revision.
pub fn rev_text(alloc: Global, rev: Rev) -> Option<String> {
    let bytes = rev.write(alloc).ok()?;
    String::from_utf8(bytes).ok()
}

/// Formats revisions, separated by commas.
pub fn revs_text(alloc: Global, revs: &[Rev]) -> Option<String> {
    let mut all = String::new(alloc);
    for rev in revs {
        let text = rev_text(alloc, *rev)?;
        if !all.is_empty() {
            all.push_str(",").ok()?;
        }
        all.push_str(text.as_str()).ok()?;
    }
    Some(all)
}
