//! Tests of worlds in one thread and under a lock, of schedules, of pools and sites, and of each kind of run: all over the same small plans.
#![tactic(auto)]

#[cfg(test)]
mod coming;
#[cfg(test)]
mod detected;
#[cfg(test)]
mod journals;
#[cfg(test)]
mod leaving;
#[cfg(test)]
mod meeting;
#[cfg(test)]
mod plans;
#[cfg(test)]
mod pool_steps;
#[cfg(test)]
mod pool_threads;
#[cfg(test)]
mod runs;
#[cfg(test)]
mod schedules;
#[cfg(test)]
mod site_bytes;
#[cfg(test)]
mod site_desk;
#[cfg(test)]
mod site_keepers;
#[cfg(test)]
mod site_meeting;
#[cfg(test)]
mod site_moments;
#[cfg(test)]
mod site_runs;
#[cfg(test)]
mod state_texts;
#[cfg(test)]
mod states;
#[cfg(test)]
mod texts;
