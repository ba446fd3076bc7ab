// Headers, pages, trees and properties in words: what programs that run files say of them, a line for a call.
#![tactic(auto)]

pub mod pages;
pub mod trees;

use header::Header;
use property::Property;
use refusal::Verdict;
use said::{Answer, Refused};
use std::fmt;

// What a header says.
#[derive(Clone, Copy)]
pub struct HeaderWords(pub Header);

impl fmt::Display for HeaderWords {
    fn fmt<W: fmt::Write>(&self, f: &mut fmt::Formatter<W>) -> fmt::Result {
        let HeaderWords(header) = *self;
        let nodes = header.nodes;
        let blocks = header.blocks;
        write!(f, "method {}", header.method)?;
        write!(f, ", nodes {:x} at {:x}", nodes.number, nodes.offset)?;
        write!(f, ", blocks {:x} at {:x}", blocks.number, blocks.offset)?;
        write!(f, ", end {}, edition {}", header.end, header.edition)
    }
}

// A verdict, of a refusal its number and place alone.
pub fn verdict(verdict: Verdict) -> Answer<&'static str, Refused> {
    Answer(verdict.map(|()| "accepted").map_err(Refused))
}

// A property's type and what holds its value.
#[derive(Clone, Copy)]
pub struct PropertyWords(pub Property);

impl fmt::Display for PropertyWords {
    fn fmt<W: fmt::Write>(&self, f: &mut fmt::Formatter<W>) -> fmt::Result {
        match self.0 {
            Property::Number(code, value) => write!(f, "type {code:04x}, number {value:08x}"),
            Property::Empty(code) => write!(f, "type {code:04x}, empty"),
            Property::Item(code, item) => write!(f, "type {code:04x}, item {item:08x}"),
            Property::Subnode(code, node) => write!(f, "type {code:04x}, subnode {node:08x}"),
        }
    }
}
