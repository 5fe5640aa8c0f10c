//! Tests of revisions, JSON values, envelopes, fronts, logs and boards. Each test is a table of calls, each with its
//! expected result as a string. The tables of the tests are worked examples. The tests call each public function of the
//! tested crates at least once, and no allocation fails. The tests are in a separate crate, because a crate that
//! contains tests is proved twice. Revision trees and documents are tested by scripts of the program, and in other
//! crates.
//!
//! Each kind of call is a variant of an enum, so the prover handles each kind of call once. The tables are `static`
//! items. The prover does not process the rows of a `static` item.

// Revisions.
mod revisions;

// JSON values.
mod plain;
mod values;

// Envelopes.
mod envelopes;

// Fronts and logs.
mod fronts;
mod logs;

// The progress board.
mod boards;

// Strings of results.
mod texts;
