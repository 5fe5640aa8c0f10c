//! Randomized tests of databases, peers, messages between peers, networks, revision trees and fronts. Each test
//! compares the results of calls with the results of an independent reference, which was written from the definitions.

// Assertions for all test modules.
mod checks;

// Trees, and their reference.
mod merges;
mod reference;

// Trees in two representations.
mod forms;
mod plain;

// Fronts.
mod fronts;

// Tests of databases, in which calls read pages, request leaves and fetch documents.
mod exchanges;
mod feeds;

// Random selections of documents.
mod choices;

// Comparisons of two databases.
mod surveys;

// Tests that compare replicated pairs of peers with a plain model of peers.
mod pairs;
mod plain_sides;

// Tests of pairs of peers that are replicated in both directions.
mod syncs;

// Networks of several peers.
mod nets;

// Functions that compare a peer with a plain model of the peer.
mod sides;

// Tests that compare two peers and the messages between them (`World`) with a simple model (`PlainWorld`).
mod plain_worlds;
mod worlds;
