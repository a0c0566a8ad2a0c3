//! Runs by the policy of `docs/POLICY.md`: a trace and a header settle each step of a run, and so the one report of a job.
#![tactic(auto)]

pub mod laws;
#[cfg(test)]
mod tests;
