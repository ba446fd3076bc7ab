// Answers in words, with all that a refusal says, and the calls that take the image alone.
use refusal::{Refusal, Verdict};
use said::Answer;
use shown::HeaderWords;
use shown::trees::{Entry, FoundWords};
use std::io;
use tree::Found;

pub fn verdict(verdict: Verdict) -> Answer<&'static str, Refusal> {
    Answer(verdict.map(|()| "accepted"))
}

pub fn found<T: Entry + Copy>(found: Result<Found<T>, Refusal>) -> Answer<FoundWords<T>, Refusal> {
    Answer(found.map(FoundWords))
}

pub fn whole_lines(rt: &impl Print, image: &[u8]) -> io::Result<()> {
    println!(rt; "header: {}", Answer(pst::header(image).map(HeaderWords)))?;
    println!(rt; "check_nodes: {}", verdict(pst::check_nodes(image)))?;
    println!(rt; "check_blocks: {}", verdict(pst::check_blocks(image)))
}
