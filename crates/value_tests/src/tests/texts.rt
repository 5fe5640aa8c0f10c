//! Helper functions of the tests, which create signatures and ancestries from strings, and compare the results of calls
//! with expected strings.
use rev_core::{Ancestry, Sig};
use std::alloc::Global;
use std::process::Abort;

/// Asserts that the test could perform a call, and that the call returned the expected string. If `answer` is `None`,
/// the test could not perform the call.
pub(crate) fn expect_answer(rt: &impl Abort, number: usize, answer: Option<String>, wanted: &str) {
    let is_wanted = match &answer {
        Some(text) => text.as_str() == wanted,
        None => false,
    };
    assert!(rt; is_wanted, "call {number}: {answer:?}, not {wanted}");
}

/// Parses signatures.
pub(crate) fn sigs(alloc: Global, texts: &[&str]) -> Option<Vec<Sig>> {
    let mut all = Vec::new(alloc);
    for text in texts {
        let Ok(sig) = Sig::parse(text.as_bytes()) else {
            return None;
        };
        let Ok(()) = all.push(sig) else {
            return None;
        };
    }
    Some(all)
}

/// Creates an ancestry from a generation and signatures.
pub(crate) fn ancestry(alloc: Global, start: u32, ids: &[&str]) -> Option<Ancestry> {
    let Some(sigs) = sigs(alloc, ids) else {
        return None;
    };
    Ancestry::from_parts(alloc, start, &sigs).ok()
}
