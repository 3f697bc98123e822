// Test only: what the oracle asks of one voice's whole frame, the record in bytes, as record_reader has them. As in voice_jobs, the program
// run_voice answers jobs with it, exports_voice gives it a C name, and it promises nothing of its own.
#![tactic(auto)]

pub mod serving;
