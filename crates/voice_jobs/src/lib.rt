// Test only: what the oracle asks of a voice whose record stands in bytes, as record_reader has them. The program run_voice answers jobs
// with these functions, and exports_voice gives them C names. They promise nothing of their own.
#![tactic(auto)]

pub mod configuration;
pub mod filtering;
pub mod playing;
