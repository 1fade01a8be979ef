// Service advertisements read and written (02, A2).
ghost use Rattle.std.specs.Prelude.{◌≡◌, List, ℕ};
ghost use Rattle.rule.specs.Outcome.{Outcome};
ghost use Rattle.rule.specs.Answers.{read_services_values, write_services_values};
ghost use Rattle.rule.specs.Services.{read_services_outcome, write_services_outcome};

use key_index::chain::INDEX;
use rule::answer::{ReadServicesAnswer, WriteServicesAnswer};
use service_reading::read::read_in_table;
use service_writing::write::write_in_table;
use verdict::examine::examine;

// "Read one into member records": the words of a record for each service of the sub-TLV, into a lent list; how many.
pub fn read_services(table: &[u8], bytes: &[u8], words: &mut [u32]) -> ReadServicesAnswer
    ensures { ◌≡◌ {A = Outcome ℕ × List ℕ} (read_services_values result, words.new) (read_services_outcome table.now bytes.now words.old) }
{
    let mut link_index = [0u32; INDEX];
    let examined = examine(table, &mut link_index);
    match examined {
        Ok(s) => read_in_table(table, s, bytes, words),
        Err(refusal) => ReadServicesAnswer::from(refusal),
    }
}

// "write a bridge's members of one VID as sub-TLVs": their bytes, into a lent list; how many.
pub fn write_services(table: &[u8], bridge: u32, vid: u32, bytes: &mut [u8]) -> WriteServicesAnswer
    ensures { ◌≡◌ {A = Outcome ℕ × List ℕ} (write_services_values result, bytes.new) (write_services_outcome table.now bridge vid bytes.old) }
{
    let mut link_index = [0u32; INDEX];
    let examined = examine(table, &mut link_index);
    match examined {
        Ok(s) => write_in_table(table, s, bridge, vid, bytes),
        Err(refusal) => WriteServicesAnswer::from(refusal),
    }
}
