// Runs, plans and answers in words of lent buffers: what the calls for C and Rust read and write.
#![tactic(auto)]

pub mod answer_words; // answer_words.rt: an answer in three words
pub mod facts; // facts.rt: the facts of a miss in a lent buffer of words
pub mod figures; // figures.rt: a number for each task in a lent buffer of words
pub mod plan_buffer; // plan_buffer.rt: a supplied plan in a lent buffer of words
pub mod run_buffer; // run_buffer.rt: a run in a lent buffer of words
