// A page of values with eight bytes each, and zeros after them.
ghost use Rattle.std.specs.Prelude.{◌≡◌, ◌*◌, ◌≤◌, ◌↔◌, List, [], ◌∷◌, length, ◌≢◌, IsTrue, OnOk, OnErr};
ghost use Rattle.std.specs.List.{AllByRecursion};
ghost use Rattle.layout.specs.Bytes.{zeros, Decodes};
ghost use Rattle.layout.specs.Pages.{cells_page};

use crate::cells::Cell;
use crate::notes::Malformed;

// The page of these values.
#[tactic(auto, unfolding(crate::specs::Pages::cells_page))]
pub(crate) fn page_of<C: Cell>(cells: &[C]) -> [u8; 512]
    requires { length cells.now ≤ 64 }
    ensures { result ≡ cells_page C.Cell.bytes cells.now }
{
    let mut page = [0; 512];
    for (k, cell) in cells.iter().enumerate() {
        page[8 * k..8 * k + 8].copy_from_slice(&cell.encode());
    }
    page
}

// Whether all bytes are zero.
fn is_zero(bytes: &[u8]) -> bool
    ensures { IsTrue result ↔ (bytes.now ≡ zeros (length bytes.now)) }
{
    bytes.iter().all(|byte| *byte == 0)
}

// Reads as many values as there is room for, from a page with zeros after them. After an error the room may hold some values of the page.
// The page is a slice here and below, since the public functions are given one: to make an array of it first would be no plainer.
#[tactic(auto, unfolding(crate::specs::Pages::cells_page))]
pub(crate) fn read_cells<C: Cell>(page: &[u8], cells: &mut [C]) -> Result<(), Malformed>
    requires few { length cells.old ≤ 64 }
    requires whole { length page.now ≡ 512 }
    ensures ok { OnOk result (AllByRecursion C.Cell.proper cells.new × (page.now ≡ cells_page C.Cell.bytes cells.new)) }
    ensures err { OnErr result ((xs : List C) → length xs ≡ length cells.old → AllByRecursion C.Cell.proper xs → page.now ≢ cells_page C.Cell.bytes xs) }
{
    if !is_zero(&page[8 * cells.len()..]) {
        return Err(Malformed);
    }
    for (k, cell) in cells.iter_mut().enumerate() {
        *cell = C::decode(&page[8 * k..8 * k + 8]).ok_or(Malformed)?;
    }
    Ok(())
}

// The one value of a page with zeros after it.
#[tactic(auto, unfolding(crate::specs::Pages::cells_page))]
pub(crate) fn read_cell<C: Cell>(page: &[u8]) -> Option<C>
    requires { length page.now ≡ 512 }
    ensures { Decodes C.Cell.proper (λ x. cells_page C.Cell.bytes (x ∷ [])) page.now result }
{
    let (front, rest) = page.split_at(8);
    if is_zero(rest) {
        C::decode(front)
    } else {
        None
    }
}
