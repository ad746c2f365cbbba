// What `plan` answers: a flow sheet's text goes in, the text of its gate list comes out, or that of a refusal.
#![tactic(auto)]

ghost use Rattle.std.specs.Prelude.{◌≡◌, ◌<◌, ◌≤◌, length, IfOk, Some};
ghost use Rattle.refusal.specs.Told.{refusal_text};
ghost use Rattle.sheet.specs.Contents.{traffic_of};
ghost use Rattle.sheet.specs.Reading.{sheet_of};
ghost use Rattle.gates.specs.Writes.{write_fault};
ghost use Rattle.planner.specs.Answer.{written, sheet_answer, plan_answer};

use gates::entry::{Entry, MOST_ENTRIES};
use gates::text::write_list;
use refusal::{Refusal, refusal_text};
use search::serving::DeadlineMonotonic;
use search::window::Window;
use search_laws::lawful_search;
use sheet::refusals::sheet_refusal;
use sheet::sheet::Sheet;
use std::alloc::{AllocError, Global};

// As many bytes as the text of any list: 1,024 lines of at most 30 bytes.
const LONGEST_TEXT: usize = 30_720;

// The lines of a refusal.
fn refused(heap: Global, refusal: Refusal) -> Result<Vec<u8>, AllocError>
    ensures { IfOk result (λ v. v.items ≡ refusal_text refusal) }
{
    refusal_text(heap, refusal)?.as_bytes().to_vec(heap)
}

// The text of a list, or of the refusal of its writing, by way of this memory.
fn written_in(heap: Global, list: &[Entry], memory: &mut [u8]) -> Result<Vec<u8>, AllocError>
    ensures { IfOk result (λ v. v.items ≡ written list.now (write_fault list.now (length memory.old))) }
{
    match write_list(list, memory) {
        Ok(n) => memory[0..n].to_vec(heap),
        Err(fault) => refused(heap, Refusal::from(fault)),
    }
}

// The text of a list, or of the refusal of its writing.
fn list_text(heap: Global, list: &[Entry]) -> Result<Vec<u8>, AllocError>
    ensures { IfOk result (λ v. v.items ≡ written list.now (write_fault list.now 30720)) }
{
    let mut memory = vec![in heap; 0u8; LONGEST_TEXT]?;
    written_in(heap, list, memory.as_mut_slice())
}

// The text of the sheet's deadline-monotonic list, or of the refusal of its search, by way of this memory: the two lent memories
// go side by side, as the search takes them.
fn found_in(
    heap: Global,
    sheet: &Sheet,
    list: &mut [Entry],
    windows: &mut [Window],
) -> Result<Vec<u8>, AllocError>
    requires some { 0 < length (traffic_of sheet.now).flows }
    requires memory { (1024 ≤ length list.old) × (1024 ≤ length windows.old) }
    ensures { IfOk result (λ v. v.items ≡ sheet_answer (traffic_of sheet.now)) }
{
    match lawful_search(sheet, &DeadlineMonotonic, list, windows) {
        Ok(n) => list_text(heap, &list[0..n]),
        Err(fault) => refused(heap, Refusal::from(fault)),
    }
}

// The text of the sheet's deadline-monotonic list, or of the refusal of its search.
fn answer(heap: Global, sheet: &Sheet) -> Result<Vec<u8>, AllocError>
    requires { 0 < length (traffic_of sheet.now).flows }
    ensures { IfOk result (λ v. v.items ≡ sheet_answer (traffic_of sheet.now)) }
{
    let mut list = vec![in heap; Entry::ZERO; MOST_ENTRIES]?;
    let mut windows = vec![in heap; Window::default(); MOST_ENTRIES]?;
    found_in(heap, sheet, list.as_mut_slice(), windows.as_mut_slice())
}

// The text that answers a sheet's text.
pub fn plan(heap: Global, text: &[u8]) -> Result<Vec<u8>, AllocError>
    ensures { IfOk result (λ v. Some v.items ≡ plan_answer (sheet_of text.now)) }
{
    let mut sheet = Sheet::new(heap);
    match sheet.read(text) {
        Ok(()) => answer(heap, &sheet),
        Err(fault) => {
            let refusal = sheet_refusal(fault).ok_or(AllocError)?;
            refused(heap, refusal)
        }
    }
}
