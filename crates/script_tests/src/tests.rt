//! Tests of the script engine, with simple servers written for the tests. The tests check which output the engine
//! writes for lines of a script, and when the engine flushes the output. The module `devices` has devices that read and
//! write few bytes per call, and fail at a chosen call.

// Tests of the output that the engine writes for lines, and of the time at which it flushes the output.
mod engine;

// Failing devices.
mod devices;

// Output in pieces.
mod pieces;
