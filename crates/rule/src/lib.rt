// The types that the library's contracts name, in the forms that document 01 asks for. The rule itself is in specs/.
#![tactic(auto)]

pub mod answer;
pub mod kinds;
pub mod refusal;
