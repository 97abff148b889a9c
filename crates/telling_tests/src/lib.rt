//! Tests of the public calls of the crates of the floors telling, tools and front end, where no case can show what they
//! show: values, threads, want of memory, and reads and writes that fail.
#![tactic(auto)]

#[cfg(test)]
mod advisory_report_tests;
#[cfg(test)]
mod deliveries_tests;
#[cfg(test)]
mod enc_file_tests;
#[cfg(test)]
mod enc_gen_tests;
#[cfg(test)]
mod possibilities_tests;
#[cfg(test)]
mod rec_text_tests;
#[cfg(test)]
mod response_tests;
#[cfg(test)]
mod runs;
#[cfg(test)]
mod serial_runs;
#[cfg(test)]
mod sweep_tests;
#[cfg(test)]
mod track_sentences_tests;
#[cfg(test)]
mod verdict_sentences_tests;
#[cfg(test)]
mod word_text_tests;
