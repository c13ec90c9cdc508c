// Schedules played to try the bench: every refusal in its order of checks, full rows, full transit, and rollbacks.
#![tactic(auto)]

#[cfg(test)]
mod agreement;
#[cfg(test)]
mod commits;
#[cfg(test)]
mod deliveries;
#[cfg(test)]
mod offers;
#[cfg(test)]
mod playing_text;
#[cfg(test)]
mod rollbacks;
#[cfg(test)]
mod runs;
