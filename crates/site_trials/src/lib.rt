// Trials of a site, over both stores and both logs: every refusal at its edge, and that a declined call changes nothing.
//
// `turns` has the form of a trial, a list of calls with what each has to answer, and takes them; `pairs` makes the sites.
#![tactic(auto)]

#[cfg(test)]
mod changes;
#[cfg(test)]
mod drafts;
#[cfg(test)]
mod making;
#[cfg(test)]
mod modes;
#[cfg(test)]
mod moments;
#[cfg(test)]
mod pages;
#[cfg(test)]
mod pairs;
#[cfg(test)]
mod places;
#[cfg(test)]
mod posts;
#[cfg(test)]
mod refusals;
#[cfg(test)]
mod said;
#[cfg(test)]
mod seen;
#[cfg(test)]
mod spelt;
#[cfg(test)]
mod turns;
