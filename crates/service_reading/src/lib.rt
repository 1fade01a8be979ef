// Services read (02, A2): one SPBM Service Identifier sub-TLV into member records, of a table that passed the check; and what a sub-TLV or
// a call names in the table.
#![tactic(auto)]

pub mod advertiser;
pub mod judged;
pub mod layout;
pub mod read;
pub mod sub_tlv;
