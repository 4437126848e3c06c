//! Tests that need code: memory that is refused, and given back, packs that come in parts or fail, readers and writers that fail or record
//! when they were flushed, how often a repository is asked, answers over a store that is asked, bytes of a pack as they pass, many packets
//! and prefixes at once, and the names and texts of errors. What a text can state is a case of `worked_conversations`.
#![tactic(auto)]

#[cfg(test)]
mod adding;
#[cfg(test)]
mod bands;
#[cfg(test)]
mod checking;
#[cfg(test)]
mod clients;
#[cfg(test)]
mod conversing;
#[cfg(test)]
mod escapes;
#[cfg(test)]
mod expecting;
#[cfg(test)]
mod faults;
#[cfg(test)]
mod freed_memory;
#[cfg(test)]
mod full_packets;
#[cfg(test)]
mod host_answers;
#[cfg(test)]
mod host_memory;
#[cfg(test)]
mod many_packets;
#[cfg(test)]
mod many_prefixes;
#[cfg(test)]
mod meeting;
#[cfg(test)]
mod names;
#[cfg(test)]
mod packs;
#[cfg(test)]
mod playing_memory;
#[cfg(test)]
mod readiness;
#[cfg(test)]
mod recorded;
#[cfg(test)]
mod reported_references;
#[cfg(test)]
mod repository_memory;
#[cfg(test)]
mod repository_text;
#[cfg(test)]
mod request_memory;
#[cfg(test)]
mod script_memory;
#[cfg(test)]
mod server_memory;
#[cfg(test)]
mod servers;
#[cfg(test)]
mod serving;
#[cfg(test)]
mod short_texts;
#[cfg(test)]
mod showing;
#[cfg(test)]
mod stopping;
#[cfg(test)]
mod transcripts;
