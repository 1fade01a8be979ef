// Entries (01, "Calls").
ghost use Rattle.std.specs.Prelude.{◌≡◌, List, ℕ};
ghost use Rattle.rule.specs.Outcome.{Outcome};
ghost use Rattle.rule.specs.Answers.{entries_values};
ghost use Rattle.rule.specs.Calls.{entries_outcome};

use entries::list::entries_in_table;
use key_index::chain::INDEX;
use rule::answer::EntriesAnswer;
use verdict::examine::examine;

// "Entries (bridge): into a lent list of words; the words written."
pub fn entries(table: &[u8], bridge: u32, list: &mut [u32]) -> EntriesAnswer
    ensures { ◌≡◌ {A = Outcome ℕ × List ℕ} (entries_values result, list.new) (entries_outcome table.now bridge list.old) }
{
    let mut link_index = [0u32; INDEX];
    let examined = examine(table, &mut link_index);
    match examined {
        Ok(s) => entries_in_table(table, s, &link_index, bridge, list),
        Err(refusal) => EntriesAnswer::from(refusal),
    }
}
