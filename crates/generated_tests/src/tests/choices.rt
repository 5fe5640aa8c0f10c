//! Creates random selections of documents.
use crate::tests::feeds::id;
use crate::tests::merges::below;
use crate::tests::plain_sides::{ALL, IDS, Picked, is_picked};
use doc_json::Chosen;
use rand_chacha::ChaCha8Rng;
use std::alloc::Global;
use std::process::Abort;

/// Returns a nonempty random set of documents.
pub(crate) fn some(rng: &mut ChaCha8Rng) -> Picked {
    below(rng, 31) as Picked + 1
}

/// Returns the set of all documents, or a random set of documents.
pub(crate) fn all_or_some(rng: &mut ChaCha8Rng) -> Picked {
    if below(rng, 2) == 0 { ALL } else { some(rng) }
}

/// Creates the selection of the documents in a mask, or returns `None` for the mask `ALL`. The function passes the ids
/// to `Chosen::new` in reverse order. If the mask has only one document, the function passes this document's id twice.
pub(crate) fn chosen(rt: &impl Abort, alloc: Global, picked: Picked) -> Option<Chosen> {
    if picked == ALL {
        return None;
    }
    let mut ids = Vec::new(alloc);
    for place in 0..2 * IDS {
        let number = IDS - 1 - place % IDS;
        if is_picked(picked, number) && (place < IDS || ids.len() == 1) {
            ids.push(id(rt, alloc, number)).expect(rt, "memory");
        }
    }
    Some(Chosen::new(ids).expect(rt, "a choice"))
}
