//! Worked examples of revisions: calls with expected results. The examples use each call, without failed allocations.
use crate::tests::texts::{ancestry, expect_answer, sigs};
use md5::{Digest, Md5};
use rev_core::{Ancestry, KeptRev, Rev, SmallRev, new_rev};
use std::alloc::Global;
use std::process::Abort;
use test_support::{rev, rev_text, revs_text, shown};

/// A call of a function that handles revisions, ancestries or digests. The test gives revisions as strings.
#[derive(Clone, Copy)]
enum Call<'a> {
    /// Parse a revision, and read its generation and its signature.
    Parse(&'a str),
    /// Parse a revision, and format it as a string.
    Write(&'a str),
    /// Compare two revisions.
    Compare(&'a str, &'a str),
    /// Create an ancestry from the newest generation and the signatures.
    Ancestry(u32, &'a [&'a str]),
    /// Create an ancestry, copy the ancestry, and read the revisions and the head of the copied ancestry.
    Copy(Parts<'a>),
    /// Copy an ancestry, and read whether the copied ancestry contains a revision.
    Contains(Parts<'a>, &'a str),
    /// Copy an ancestry, and read the parent of a revision in the copied ancestry.
    Parent(Parts<'a>, &'a str),
    /// Store a revision in compact form (`KeptRev`), and copy the `KeptRev`. The result is the copied revision as a
    /// string. The string begins with `short ` or `long `, which describes the revision's signature.
    Keep(&'a str),
    /// Convert a revision to a `SmallRev`, and copy the `SmallRev`. Read whether the `SmallRev` stores the revision in
    /// a heap block, and format the revision in the copied `SmallRev` as a string.
    Small(&'a str),
    /// Compare two revisions that are converted to values of `SmallRev`.
    CompareSmall(&'a str, &'a str),
    /// Compute the hexadecimal digits of the digest of a string.
    Digest(&'a str),
    /// Decode hexadecimal digits.
    Decode(&'a str),
    /// Compute the revision of an edit from the parent (an empty string if there is no parent), the deleted flag, and
    /// the body.
    Edit(&'a str, bool, &'a str),
}

/// The calls of a test, and each call's expected result.
type Rows = &'static [(Call<'static>, &'static str)];

/// The newest generation of an ancestry, and the ancestry's signatures.
#[derive(Clone, Copy)]
struct Parts<'a> {
    start: u32,
    sigs: &'a [&'a str],
}

/// The ancestry 3-c, 2-b, 1-a.
const THREE: Parts<'static> = Parts {
    start: 3,
    sigs: &["c", "b", "a"],
};

/// Performs the calls in order, and asserts that each call returns its expected result.
fn run(rt: &impl Abort, alloc: Global, calls: &[(Call, &str)]) {
    for (i, (call, wanted)) in calls.iter().enumerate() {
        expect_answer(rt, i, answer(alloc, call), wanted);
    }
}

/// Performs a call and returns its result as a string.
fn answer(alloc: Global, call: &Call) -> Option<String> {
    match *call {
        Call::Parse(text) => parsed(alloc, text),
        Call::Write(text) => written(alloc, text),
        Call::Compare(first, second) => compared_texts(alloc, first, second),
        Call::Ancestry(start, texts) => made(alloc, start, texts),
        Call::Copy(parts) => copy_text(alloc, parts),
        Call::Contains(parts, text) => contains_text(alloc, parts, text),
        Call::Parent(parts, text) => parent_text(alloc, parts, text),
        Call::Keep(text) => kept_text(alloc, text),
        Call::Small(text) => small_text(alloc, text),
        Call::CompareSmall(one, other) => small_order(alloc, one, other),
        Call::Digest(text) => digest_text(alloc, text),
        Call::Decode(text) => decoded(alloc, text),
        Call::Edit(parent, deleted, body) => edited(alloc, parent, deleted, body),
    }
}

/// Returns the hexadecimal digits of the digest of a string.
fn digest_text(alloc: Global, text: &str) -> Option<String> {
    let digest = Md5::digest(text.as_bytes());
    hex::encode(alloc, digest.as_slice()).ok()
}

/// Decodes hexadecimal digits.
fn decoded(alloc: Global, digits: &str) -> Option<String> {
    let Ok(bytes) = hex::decode(alloc, digits) else {
        return None;
    };
    String::from_utf8(bytes).ok()
}

/// Returns the result of parsing a revision.
fn parsed(alloc: Global, text: &str) -> Option<String> {
    match Rev::parse(text.as_bytes()) {
        Ok(rev) => parts_text(alloc, rev),
        Err(fault) => shown(alloc, &fault),
    }
}

/// Returns the generation and the signature of a revision.
fn parts_text(alloc: Global, rev: Rev) -> Option<String> {
    let sig = rev.sig();
    let Ok(sig) = std::str::from_utf8(sig.bytes()) else {
        return None;
    };
    format!(in alloc; "{} {sig}", rev.generation()).ok()
}

/// Parses a revision and formats it.
fn written(alloc: Global, text: &str) -> Option<String> {
    let Some(rev) = rev(text) else {
        return None;
    };
    rev_text(alloc, rev)
}

/// Parses two revisions, and returns whether the first is less than the second, and whether the two are equal.
fn compared_texts(alloc: Global, first: &str, second: &str) -> Option<String> {
    match (rev(first), rev(second)) {
        (Some(first), Some(second)) => compared(alloc, first, second),
        _ => None,
    }
}

/// Returns whether the first of two revisions is less than the second, and whether the two revisions are equal.
fn compared(alloc: Global, first: Rev, second: Rev) -> Option<String> {
    let (less, equal) = (first < second, first == second);
    format!(in alloc; "less {less}, equal {equal}").ok()
}

/// Returns the result of creating an ancestry.
fn made(alloc: Global, start: u32, texts: &[&str]) -> Option<String> {
    let Some(sigs) = sigs(alloc, texts) else {
        return None;
    };
    match Ancestry::from_parts(alloc, start, &sigs) {
        Ok(ancestry) => revs_text(alloc, ancestry.revs()),
        Err(fault) => shown(alloc, &fault),
    }
}

/// Returns the copy of an ancestry.
fn copied(alloc: Global, parts: Parts) -> Option<Ancestry> {
    ancestry(alloc, parts.start, parts.sigs)?.copy(alloc).ok()
}

/// Copies an ancestry, and returns the head and the revisions of the copied ancestry.
fn copy_text(alloc: Global, parts: Parts) -> Option<String> {
    let Some(copy) = copied(alloc, parts) else {
        return None;
    };
    head_text(alloc, &copy)
}

/// Returns the head and the revisions of an ancestry.
fn head_text(alloc: Global, copy: &Ancestry) -> Option<String> {
    let Some(head) = rev_text(alloc, copy.head()) else {
        return None;
    };
    let Some(revs) = revs_text(alloc, copy.revs()) else {
        return None;
    };
    format!(in alloc; "{head} of {revs}").ok()
}

/// Copies an ancestry, and returns whether the copied ancestry contains a revision.
fn contains_text(alloc: Global, parts: Parts, text: &str) -> Option<String> {
    match (copied(alloc, parts), rev(text)) {
        (Some(copy), Some(rev)) => shown(alloc, &copy.contains(rev)),
        _ => None,
    }
}

/// Copies an ancestry, and returns the parent of a revision in the copied ancestry.
fn parent_text(alloc: Global, parts: Parts, text: &str) -> Option<String> {
    let (Some(copy), Some(rev)) = (copied(alloc, parts), rev(text)) else {
        return None;
    };
    match copy.parent_of(rev) {
        Some(parent) => rev_text(alloc, parent),
        None => "no parent".to_string(alloc).ok(),
    }
}

/// Copies the compact form (`KeptRev`) of a revision. Returns the copied revision as a string. The string begins with
/// `short ` or `long `, which describes the revision's signature.
fn kept_text(alloc: Global, text: &str) -> Option<String> {
    let Some(rev) = rev(text) else {
        return None;
    };
    let Some(mut all) = form_text(alloc, &rev) else {
        return None;
    };
    let Some(text) = copy_of_kept(alloc, &rev) else {
        return None;
    };
    match all.push_str(text.as_str()) {
        Ok(()) => Some(all),
        Err(_) => None,
    }
}

/// Returns the string `short ` or `long `, which says whether a revision's signature is short.
fn form_text(alloc: Global, rev: &Rev) -> Option<String> {
    match KeptRev::short(rev) {
        Some(_) => "short ".to_string(alloc).ok(),
        None => "long ".to_string(alloc).ok(),
    }
}

/// Stores a revision in compact form (`KeptRev`), copies the `KeptRev`, and returns the copied revision as a string.
fn copy_of_kept(alloc: Global, rev: &Rev) -> Option<String> {
    let Ok(kept) = KeptRev::keep(alloc, rev) else {
        return None;
    };
    match kept.copy(alloc) {
        Ok(copy) => rev_text(alloc, copy.rev()),
        Err(_) => None,
    }
}

/// Converts a revision to a `SmallRev`.
fn small(alloc: Global, rev: &Rev) -> Option<SmallRev> {
    if !SmallRev::is_long(rev) {
        return Some(SmallRev::inline(rev));
    }
    let mut blocks = Vec::new(alloc);
    let Ok(block) = Box::new(alloc, rev.sig()) else {
        return None;
    };
    match blocks.push(block) {
        Ok(()) => Some(SmallRev::long(rev, &mut blocks)),
        Err(_) => None,
    }
}

/// Converts a revision to a `SmallRev`, copies the `SmallRev`, and returns the copied revision as a string. The string
/// begins with `long ` if a `SmallRev` stores the revision in a heap block, and otherwise with `inline `.
fn small_text(alloc: Global, text: &str) -> Option<String> {
    let rev = rev(text)?;
    let small = small(alloc, &rev)?;
    let form = if SmallRev::is_long(&rev) {
        "long "
    } else {
        "inline "
    };
    let Ok(copy) = small.copy(alloc) else {
        return None;
    };
    let copied = rev_text(alloc, copy.to_rev())?;
    format!(in alloc; "{form}{copied}").ok()
}

/// Returns the order of two revisions that are converted to values of `SmallRev`.
fn small_order(alloc: Global, one: &str, other: &str) -> Option<String> {
    let one = small(alloc, &rev(one)?)?;
    let other = small(alloc, &rev(other)?)?;
    shown(alloc, &one.order(&other))
}

/// Returns the result of computing the revision of an edit.
fn edited(alloc: Global, parent: &str, deleted: bool, body: &str) -> Option<String> {
    let parent = if parent.is_empty() {
        None
    } else {
        Some(rev(parent)?)
    };
    match new_rev(alloc, parent, deleted, body.as_bytes()) {
        Ok(rev) => rev_text(alloc, rev),
        Err(fault) => shown(alloc, &fault),
    }
}

const LONGEST: &str = "1-aaaaaaaaaaaaaaaaaaaaaaaaaaaaaaaaaaaaaaaaaaaaaaaaaaaaaaaaaaaaaaaa";

const LONGEST_ANSWER: &str = "1 aaaaaaaaaaaaaaaaaaaaaaaaaaaaaaaaaaaaaaaaaaaaaaaaaaaaaaaaaaaaaaaa";

const TOO_LONG: &str = "1-aaaaaaaaaaaaaaaaaaaaaaaaaaaaaaaaaaaaaaaaaaaaaaaaaaaaaaaaaaaaaaaaa";

static PARSING_ROWS: Rows = &[
    (Call::Parse("1-a-b"), "1 a-b"),
    (Call::Parse("01-a"), "BadGeneration"),
    (Call::Parse("0-a"), "BadGeneration"),
    (Call::Parse("4294967296-a"), "BadGeneration"),
    (Call::Parse("1"), "BadGeneration"),
    (Call::Parse(""), "BadGeneration"),
    (Call::Parse("1-"), "BadSig"),
    (Call::Parse("1-a/b"), "BadSig"),
    (Call::Parse(TOO_LONG), "BadSig"),
    (Call::Parse(LONGEST), LONGEST_ANSWER),
    (Call::Parse("4294967295-z"), "4294967295 z"),
];

#[test]
fn revision_parsing(rt: HostRuntime) {
    assert!(rt; LONGEST.len() == 2 + 64 && TOO_LONG.len() == 2 + 65);
    run(&rt, rt.alloc(), PARSING_ROWS);
}

const HEXADECIMAL: &str = "10-0123456789abcdef0123456789abcdef";

static WRITING_ROWS: Rows = &[
    (Call::Write("1-a-b"), "1-a-b"),
    (Call::Write("4294967295-A_z.0"), "4294967295-A_z.0"),
    (Call::Write(HEXADECIMAL), HEXADECIMAL),
];

#[test]
fn writes_what_it_parsed(rt: HostRuntime) {
    run(&rt, rt.alloc(), WRITING_ROWS);
}

const LESS: &str = "less true, equal false";

const EQUAL: &str = "less false, equal true";

static ORDER_ROWS: Rows = &[
    (Call::Compare("1-b", "2-B"), LESS),
    (Call::Compare("2-B", "2-a"), LESS),
    (Call::Compare("2-a", "2-aa"), LESS),
    (Call::Compare("2-aa", "10-a"), LESS),
    (Call::Compare("1-b", "1-b"), EQUAL),
    (Call::Compare("2-B", "2-B"), EQUAL),
    (Call::Compare("2-a", "2-a"), EQUAL),
    (Call::Compare("2-aa", "2-aa"), EQUAL),
    (Call::Compare("10-a", "10-a"), EQUAL),
];

#[test]
fn orders_by_generation_and_then_by_signature(rt: HostRuntime) {
    run(&rt, rt.alloc(), ORDER_ROWS);
}

static ANCESTRY_ROWS: Rows = &[
    (Call::Ancestry(3, &["c", "b", "a"]), "3-c,2-b,1-a"),
    (Call::Copy(THREE), "3-c of 3-c,2-b,1-a"),
    (Call::Contains(THREE, "1-a"), "true"),
    (Call::Contains(THREE, "3-a"), "false"),
    (Call::Parent(THREE, "3-c"), "2-b"),
    (Call::Parent(THREE, "2-b"), "1-a"),
    (Call::Parent(THREE, "1-a"), "no parent"),
];

#[test]
fn makes_and_copies_an_ancestry(rt: HostRuntime) {
    run(&rt, rt.alloc(), ANCESTRY_ROWS);
}

/// A revision with a signature of 32 bytes, and a revision with a signature of 33 bytes.
const DIGITS: &str = "2-0123456789abcdef0123456789abcdef";

const DIGITS_AND_ONE: &str = "2-0123456789abcdef0123456789abcdef0";

static KEPT_ROWS: Rows = &[
    (Call::Keep("1-a"), "short 1-a"),
    (Call::Keep("4294967295-A_z.0"), "short 4294967295-A_z.0"),
    (
        Call::Keep(DIGITS),
        "short 2-0123456789abcdef0123456789abcdef",
    ),
    (
        Call::Keep(DIGITS_AND_ONE),
        "long 2-0123456789abcdef0123456789abcdef0",
    ),
    (
        Call::Keep("9-f0e1d2c3b4a5968778695a4b3c2d1e0f"),
        "short 9-f0e1d2c3b4a5968778695a4b3c2d1e0f",
    ),
    (
        Call::Keep("2-0123456789ABCDEF0123456789ABCDEF"),
        "long 2-0123456789ABCDEF0123456789ABCDEF",
    ),
    (
        Call::Keep("2-0123456789abcdef0123456789abcdeg"),
        "long 2-0123456789abcdef0123456789abcdeg",
    ),
    (
        Call::Keep("2-0123456789abcdef0123456789abcde"),
        "long 2-0123456789abcdef0123456789abcde",
    ),
    (Call::Keep("3-0123456789abcdef"), "short 3-0123456789abcdef"),
    (
        Call::Keep("3-0123456789abcdef0"),
        "long 3-0123456789abcdef0",
    ),
];

static SMALL_ROWS: Rows = &[
    (Call::Small("1-a"), "inline 1-a"),
    (
        Call::Small("3-0123456789abcdef0"),
        "inline 3-0123456789abcdef0",
    ),
    (
        Call::Small("2-0123456789ABCDEF0123456789ABCDEF"),
        "inline 2-0123456789ABCDEF0123456789ABCDEF",
    ),
    (
        Call::Small(DIGITS_AND_ONE),
        "long 2-0123456789abcdef0123456789abcdef0",
    ),
    (
        Call::Small(LONGEST),
        "long 1-aaaaaaaaaaaaaaaaaaaaaaaaaaaaaaaaaaaaaaaaaaaaaaaaaaaaaaaaaaaaaaaa",
    ),
    (Call::CompareSmall("2-a", "10-a"), "Less"),
    (Call::CompareSmall(DIGITS_AND_ONE, DIGITS), "Greater"),
    (Call::CompareSmall(DIGITS, DIGITS), "Equal"),
    (Call::CompareSmall(LONGEST, "1-aaaaaaaaaaaaaaaaab"), "Less"),
    (Call::CompareSmall(LONGEST, LONGEST), "Equal"),
];

#[test]
fn small_revisions(rt: HostRuntime) {
    run(&rt, rt.alloc(), SMALL_ROWS);
}

#[test]
fn keeps_a_revision(rt: HostRuntime) {
    assert!(rt; DIGITS.len() == 2 + 32);
    run(&rt, rt.alloc(), KEPT_ROWS);
}

static REFUSED_ROWS: Rows = &[
    (Call::Ancestry(3, &[]), "NoIds"),
    (Call::Ancestry(0, &[]), "NoIds"),
    (Call::Ancestry(1, &["b", "a"]), "StartTooSmall"),
    (Call::Ancestry(0, &["b", "a"]), "StartTooSmall"),
];

#[test]
fn refuses_parts_that_make_no_ancestry(rt: HostRuntime) {
    run(&rt, rt.alloc(), REFUSED_ROWS);
}

static DIGEST_ROWS: Rows = &[
    (Call::Digest(""), "d41d8cd98f00b204e9800998ecf8427e"),
    (Call::Digest("a"), "0cc175b9c0f1b6a831c399e269772661"),
    (Call::Digest("abc"), "900150983cd24fb0d6963f7d28e17f72"),
    (
        Call::Digest("message digest"),
        "f96b697d7cb7938d525a2f31aaf161d0",
    ),
];

#[test]
fn digests_of_the_standard(rt: HostRuntime) {
    run(&rt, rt.alloc(), DIGEST_ROWS);
}

const LIVE: &str = r#"{"n":1}"#;

const STATED: &str = "1-a\nlive\n{\"n\":1}";

/// Each expected signature is the MD5 of the parent, the kind (`live` or `deleted`) and the body, separated by line
/// feeds.
static EDIT_ROWS: Rows = &[
    (Call::Decode("312d610a6c6976650a7b226e223a317d"), STATED),
    (Call::Digest(STATED), "c96964c5f2e1e7ba6a7331423f490bd6"),
    (
        Call::Edit("1-a", false, LIVE),
        "2-c96964c5f2e1e7ba6a7331423f490bd6",
    ),
    (
        Call::Edit("1-a", true, "{}"),
        "2-c529cc259c1f74b71d33b9bc42900d24",
    ),
    (
        Call::Edit("", false, "{}"),
        "1-a7b2c897c2eeb544e2e818194f53a9e3",
    ),
];

#[test]
fn ids_of_local_edits(rt: HostRuntime) {
    run(&rt, rt.alloc(), EDIT_ROWS);
}

/// The expected signature was computed with the program md5sum.
const GREATEST: &str = "4294967295-62296738d45faefb3c4ca58de75db3a8";

static GREATEST_ROWS: Rows = &[
    (Call::Edit("4294967295-z", false, "{}"), "GenerationFull"),
    (Call::Edit("4294967294-z", false, "{}"), GREATEST),
];

#[test]
fn no_generation_after_the_greatest(rt: HostRuntime) {
    run(&rt, rt.alloc(), GREATEST_ROWS);
}
