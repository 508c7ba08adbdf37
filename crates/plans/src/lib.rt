// What a template says in numbers: made once by the scan, read for every list by the matcher, the judge and the reason.
#![tactic(auto)]

use sorts::Sort;

// The refusal's number or 0; the least and greatest length of the list; the sort of the leaves, with the element type; the body's kind, CONTAINMENT for a
// subset that sheet 1 reads; how many blocks and members; the blocks, each as a number, and the places of the members in the bytes.
#[derive(Clone, Copy)]
pub struct Plan {
    pub number: u8,
    pub low: u8,
    pub high: u8,
    pub sort: Sort,
    pub kind: u8,
    pub count: usize,
    pub members: usize,
    pub blocks: [u32; 32],
    pub places: [u16; 32],
}
