//! Tests of databases and peers. Each test is a table of calls and their expected results, which are strings.
//!
//! A bench is a test fixture that holds the databases or peers of a test. A bench also holds the values that earlier
//! calls of the test returned. Each kind of call is a variant of an enum. The code for each kind of call is proved
//! once, and all tests use this code. A new test needs no new proof, because all code that performs the test's calls is
//! proved already.

// Calls on databases.
mod database_rows;
mod databases;

// Calls on peers.
mod peer_rows;
mod peers;

// Backups of peers.
mod backup_rows;
mod backups;

// Tests of selections of documents, and of replications that copy only the selected documents.
mod choice_rows;
mod choices;

// Tests of the steps that all implementations of a replication have in common.
mod plan_rows;
mod plans;

// Large values.
mod large;
mod large_rows;

// Replications by the pool.
mod carried;
mod pool_rows;
mod pools;

// Tests of pool runs in which a gate (a function that the workers call) observes, blocks or stops the workers.
mod pool_boards;
mod pool_gates;
mod pool_orders;
mod pool_schedules;

// Tests in which values are moved into a thread and back.
mod crossings;

// Networks of peers.
mod net_rows;
mod nets;

// Queries about two peers.
mod survey_rows;
mod surveys;

// Two peers and the messages in transit between them (`World`).
mod world_rows;
mod worlds;

// Strings of results.
mod records;
mod texts;
