// Tests of what runs: values, their texts and stacks, bytes from outside, journals and transcripts, the validator and
// one task's execution.
#![tactic(auto)]

#[cfg(test)]
mod execution;
#[cfg(test)]
mod formats;
#[cfg(test)]
mod journal;
#[cfg(test)]
mod journal_inputs;
#[cfg(test)]
mod lawful;
#[cfg(test)]
mod lines;
#[cfg(test)]
mod lists;
#[cfg(test)]
mod objects;
#[cfg(test)]
mod operands;
#[cfg(test)]
mod outside;
#[cfg(test)]
mod rules;
#[cfg(test)]
mod saved_rules;
#[cfg(test)]
mod saved_runs;
#[cfg(test)]
mod scans;
#[cfg(test)]
mod snapshots;
#[cfg(test)]
mod stacks;
#[cfg(test)]
mod values;
#[cfg(test)]
mod watch;
