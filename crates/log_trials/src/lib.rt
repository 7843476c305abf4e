// Trials of the logs: both are driven with the same long lists of calls, and every answer is compared.
#![tactic(auto)]

#[cfg(test)]
mod calls;
#[cfg(test)]
mod random;
#[cfg(test)]
mod same;
#[cfg(test)]
mod tests;
