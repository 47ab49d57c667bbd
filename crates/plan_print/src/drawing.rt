//! The drawing of a chamber seen from above, in cells.
ghost use Rattle.std.specs.Prelude.{◌≡◌, ◌+◌, ◌*◌, ◌<◌, ◌≤◌, ◌⊎◌, ℕ, ◌++◌, length, map, OnOk, slice_index, if◌then◌else◌};
ghost use Rattle.std.specs.List.{range_with_len};
ghost use Rattle.plan_print.specs.Words.{letter};
ghost use Rattle.plan_print.specs.Drawing.{cell_length, cell_width, columns_of, rows_of, covers, ship_over, mark_of, cell_at, row_line, drawing};

use crate::text::letter;
use lock_model::{Deck, MOST, Size, Spot, Spots};
use no_memory::NoMemory;
use plain_text::put;

/// The most cells of a row.
const MOST_COLUMNS: usize = 200;

/// The most rows of a drawing.
const MOST_ROWS: u32 = 60;

/// The least decimetres of a cell along the chamber.
const LEAST_CELL_LENGTH: u32 = 50;

/// The least decimetres of a cell across the chamber.
const LEAST_CELL_WIDTH: u32 = 10;

/// The decimetres along the chamber that a cell speaks of.
fn cell_length(deck: &Deck) -> u32
    ensures value { result ≡ cell_length deck.now }
    ensures positive { 0 < result }
{
    deck.length
        .div_ceil(MOST_COLUMNS as u32)
        .max(LEAST_CELL_LENGTH)
}

/// The decimetres across the chamber that a cell speaks of.
fn cell_width(deck: &Deck) -> u32
    ensures value { result ≡ cell_width deck.now }
    ensures positive { 0 < result }
{
    deck.width.div_ceil(MOST_ROWS).max(LEAST_CELL_WIDTH)
}

/// The number of cells in a row.
#[tactic(auto, using(crate::proofs::CellLemmas::of_cells))]
fn columns_of(deck: &Deck) -> u32
    ensures value { result ≡ columns_of deck.now }
    ensures small { result ≤ 200 }
{
    deck.length.div_ceil(cell_length(deck))
}

/// The number of rows.
#[tactic(auto, using(crate::proofs::CellLemmas::of_cells))]
fn rows_of(deck: &Deck) -> u32
    ensures value { result ≡ rows_of deck.now }
    ensures small { result ≤ 60 }
{
    deck.width.div_ceil(cell_width(deck))
}

/// Writes a letter into the cells of a span, as far as they are there.
fn fill(cells: &mut [u8], from: u64, to: u64, letter: u8)
    ensures inside { (k : ℕ) → from ≤ k → k < to → k < length cells.old → slice_index cells.new k ≡ letter }
    ensures outside { (k : ℕ) → (k < from) ⊎ (to ≤ k) → slice_index cells.new k ≡ slice_index cells.old k }
{
    let end = to.min(cells.len() as u64);
    for k in from.min(end)..end {
        cells[k as usize] = letter;
    }
}

/// Writes the letter of a ship into the cells that it covers of a row at `y` from the left quay.
fn paint_ship(cells: &mut [u8], size: &Size, spot: &Spot, cell_length: u32, y: u64, letter: u8)
    requires { 0 < cell_length }
    ensures { (k : ℕ) → k < length cells.old
        → slice_index cells.new k ≡ (if covers size.now spot.now (k * cell_length) y then letter else slice_index cells.old k) }
{
    let near = spot.x as u64;
    let far = near + size.length as u64;
    let low = spot.y as u64;
    if low <= y && y < low + size.width as u64 {
        fill(
            cells,
            near.div_ceil(cell_length as u64),
            far.div_ceil(cell_length as u64),
            letter,
        );
    }
}

/// The cells of the row at `y`, as many as a row can have. Ships are painted from the last to the
/// first, so that the first stays on top.
fn row_cells(sizes: &[Size], spots: &[Spot], cell_length: u32, y: u64) -> [u8; MOST_COLUMNS]
    requires few { length sizes.now ≤ MOST }
    requires count { length spots.now ≡ length sizes.now }
    requires positive { 0 < cell_length }
    ensures { (k : ℕ) → k < 200 → slice_index result k ≡ mark_of (ship_over sizes.now spots.now (k * cell_length) y) }
{
    let mut cells = [b'.'; MOST_COLUMNS];
    for i in (0..sizes.len()).rev() {
        paint_ship(
            &mut cells,
            &sizes[i],
            &spots[i],
            cell_length,
            y,
            letter(i as u8),
        );
    }
    cells
}

/// Appends the cells of a row, counted from the left quay.
fn put_cells(out: &mut Vec<u8>, deck: &Deck, spots: &Spots, row: u32) -> Result<(), NoMemory>
    requires { length spots.now ≡ length deck.now.ships }
    ensures { OnOk result (out.new.items ≡ out.old.items ++ map (cell_at deck.now spots.now row) (range_with_len 0 (columns_of deck.now))) }
{
    let y = row as u64 * cell_width(deck) as u64;
    let cells = row_cells(
        deck.ships.as_slice(),
        spots.as_slice(),
        cell_length(deck),
        y,
    );
    let columns = columns_of(deck) as usize;
    put(out, &cells[..columns])
}

/// Appends a row of the drawing, counted from the left quay.
#[tactic(auto, unfolding(crate::specs::Drawing::row_line))]
fn put_row(out: &mut Vec<u8>, deck: &Deck, spots: &Spots, row: u32) -> Result<(), NoMemory>
    requires { length spots.now ≡ length deck.now.ships }
    ensures { OnOk result (out.new.items ≡ out.old.items ++ row_line deck.now spots.now row) }
{
    put(out, b"  |")?;
    put_cells(out, deck, spots, row)?;
    put(out, b"|\n")
}

/// Appends the drawing of a chamber.
#[tactic(auto, unfolding(crate::specs::Drawing::drawing))]
pub(crate) fn put_drawing(out: &mut Vec<u8>, deck: &Deck, spots: &Spots) -> Result<(), NoMemory>
    requires { length spots.now ≡ length deck.now.ships }
    ensures { OnOk result (out.new.items ≡ out.old.items ++ drawing deck.now spots.now) }
{
    let rows = rows_of(deck);
    out.reserve(rows as usize * (columns_of(deck) as usize + 5))?;
    for row in 0..rows {
        put_row(out, deck, spots, row)?;
    }
    Ok(())
}
