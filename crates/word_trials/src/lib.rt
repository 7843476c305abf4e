// Trials of the word format: known encodings, damaged words, short buffers, and the reader of writes.
#![tactic(auto)]

#[cfg(test)]
mod damaged_messages;
#[cfg(test)]
mod damaged_pages;
#[cfg(test)]
mod encoded;
#[cfg(test)]
mod examples;
#[cfg(test)]
mod respelled;
#[cfg(test)]
mod scanned;
