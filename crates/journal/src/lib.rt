// The journal of calls for hosts: a record of each call, written and read; `journal_c` exports it to C. A record is 36 words, so that
// which one is the last is known whatever is damaged: its number, counted from 0; 33 words of a call, an instruction's as
// they stand on a tape or a commit's (a word of kind 15, then the ticket's six numbers), then zeros; and two words of
// checksum, the low half first.
#![tactic(auto)]

pub mod noting;
pub mod reading;

// What reading answers: the reason, 0 where a record is read; its kind and numbers, 0 where none is. It is returned by
// value to C, so that the reason is a number with the others beside it, and no Result.
#[repr(C)]
#[derive(Clone, Copy, Drop)]
pub struct Journalled {
    pub reason: u32,
    pub kind: u32,
    pub numbers: [u32; 6],
}
