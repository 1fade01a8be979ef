// A table examined kind by kind: the verdict, and what the layers above need of an accepted table, the numbers of its records and the
// index of its link numbers.
ghost use Rattle.std.specs.Prelude.{◌≡◌, length};
ghost use Rattle.rule.specs.Words.{words_of};
ghost use Rattle.rule.specs.Check.{bad_length, read_on, start, verdict};
ghost use Rattle.table.specs.Whole.{Whole};
ghost use Rattle.key_index.specs.Index.{Indexed};
ghost use Rattle.runs.specs.Runs.{Reached, Before};
ghost use Rattle.verdict.specs.Examination.{examined_values, LowerOnly, AcceptedAs, AcceptedAfterAll, Passed};

use faults::lowest::end_fault;
use rule::answer::RecordKind;
use rule::kinds::{BRIDGE, END, LONGEST_TABLE, MEMBER};
use rule::refusal::{Fault, Refusal};
use runs::kinds::read_kind;
use runs::run::{is_next, read_traffic_records};
use steps::step::refusal;
use table::shape::Shape;

// "The table's length is 0, above 7,492 bytes, or no multiple of 4", with 9,540 for 7,492 (02, A5).
fn has_bad_length(bytes: usize) -> bool
    ensures { result ≡ bad_length bytes }
{
    if bytes == 0 {
        return true;
    }
    if LONGEST_TABLE < bytes {
        return true;
    }
    bytes % 4 != 0
}

// The end record, or what stands where it is due, after all records of the other kinds: no record at all, or one whose kind is unknown
// or lower than that of the record before.
fn read_last(table: &[u8], s: Shape) -> Result<Shape, Refusal>
    requires { Whole table.now s × Reached (words_of table.now) s × LowerOnly (words_of table.now) s }
    ensures result_value { examined_values (words_of table.now) result ≡ read_on (length (words_of table.now)) (words_of table.now) start }
    ensures accepted_as { AcceptedAs s result }
{
    let at = s.words_read();
    let words = table.len() / 4;
    if words <= at {
        return Err(Refusal {
            number: Fault::Cut.number(),
            kind: RecordKind::None,
            word: words as u32,
        });
    }
    if !is_next(table, s, END) {
        return Err(Refusal {
            number: Fault::Kind.number(),
            kind: RecordKind::None,
            word: at as u32,
        });
    }
    if let Err(fault) = end_fault(table, s) {
        return Err(refusal(fault, RecordKind::End, at));
    }
    Ok(s)
}

// The traffic (02, A5), then the end record. It stands apart from the kinds before it, so that reading those has no count of traffic to
// carry. The index is read by the contract alone.
fn read_rest(table: &[u8], s: Shape, link_index: &[u32]) -> Result<Shape, Refusal>
    requires { Whole table.now s × Before (words_of table.now) link_index.now 5 s }
    ensures result_value { examined_values (words_of table.now) result ≡ read_on (length (words_of table.now)) (words_of table.now) start }
    ensures accepted_after_all { AcceptedAfterAll (words_of table.now) link_index.now result }
{
    read_last(table, read_traffic_records(table, s)?)
}

// The lent list is an index of no key, and of the link numbers of an accepted table afterwards.
pub fn examine(table: &[u8], link_index: &mut [u32]) -> Result<Shape, Refusal>
    requires { Indexed link_index.old 0 }
    ensures result_value { examined_values (words_of table.now) result ≡ verdict table.now }
    ensures passed { Passed table.now link_index.new result }
{
    if has_bad_length(table.len()) {
        return Err(Refusal::of_call(Fault::Length));
    }
    let mut s = Shape {
        bridges: 0,
        half_links: 0,
        vids: 0,
        members: 0,
        traffic: 0,
    };
    for kind in BRIDGE..=MEMBER {
        s = read_kind(table, s, kind, link_index)?;
    }
    read_rest(table, s, &link_index[..])
}
