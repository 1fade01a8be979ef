// What the programs that answer for the comparisons share: their standard input, tables one after the other, each after its length; what
// is reported where it cannot be read on; and lists before they are lent to a call. Only reading and writing assume anything: that C's read
// and write keep their contracts.
#![tactic(auto)]

pub mod bytes;
pub mod lent;
pub mod report;
pub mod tables;
