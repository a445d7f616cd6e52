// Ranges of row-major numbers, cut into boxes.
ghost use Rattle.std.specs.Prelude.{◌≡◌, ℕ, ◌<◌, ◌≤◌, ◌++◌, ◌∷◌, [], map, length, replicate, OnOk, IfOk};
ghost use Rattle.serial_spec.specs.Fill as fill;
ghost use Rattle.serial_spec.specs.Layout.{product};
ghost use Rattle.fill_records.specs.Filling.{at_row, boxes_before};

use nc_base::{Memory, Part, PartList, SizeList};
use std::alloc::Global;

// Cuts a range of elements into boxes, row by row.
#[derive(Drop)]
pub struct Cutter {
    alloc: Global,
    // The indices of the row that is being cut, the slowest first.
    row: Vec<u64>,
    // The boxes so far, with the indices of their rows.
    found: PartList,
}

impl Cutter {
    pub fn new(alloc: Global) -> Self
        ensures row { result.row.items ≡ [] }
        ensures found { result.found ≡ [] }
    {
        Cutter {
            alloc,
            row: Vec::new(alloc),
            found: PartList::new(alloc),
        }
    }

    pub fn into_boxes(self) -> PartList
        ensures { result ≡ self.found }
    {
        self.found
    }

    // Adds the boxes of the elements `from` to below `to` of a row, which has `size` elements.
    #[cycle(cutting)]
    pub fn cut(&mut self, counts: &[u64], size: u64, from: u64, to: u64) -> Result<(), Memory>
        requires size { size ≡ product counts.now }
        requires order { from ≤ to }
        requires end { to ≤ size }
        ensures row { OnOk result (self.new.row.items ≡ self.old.row.items) }
        ensures found { OnOk result (self.new.found ≡ self.old.found ++ map (λ p. at_row self.old.row.items p) (fill.boxes counts.now from to)) }
    {
        if from == to {
            return Ok(());
        }
        match counts {
            [] => self.add_element(),
            [count, inner @ ..] => self.cut_rows(inner, size / *count, from, to),
        }
    }

    // The same for rows of these counts and this size: the part of the first row, whole rows, and the part of the last row.
    #[cycle(cutting)]
    fn cut_rows(&mut self, counts: &[u64], size: u64, from: u64, to: u64) -> Result<(), Memory>
        requires size { size ≡ product counts.now }
        requires some { 1 ≤ size }
        requires order { from < to }
        ensures row { OnOk result (self.new.row.items ≡ self.old.row.items) }
        ensures found { OnOk result ((count : ℕ) → self.new.found ≡ self.old.found ++ map (λ p. at_row self.old.row.items p) (fill.boxes (count ∷ counts.now) from to)) }
    {
        let (first, last) = (from / size, to / size);
        if first == last {
            return self.cut_row(first, counts, size, from % size, to % size);
        }
        self.cut_before(counts, size, from, last)?;
        self.cut_row(last, counts, size, 0, to % size)
    }

    // Adds the boxes before the last row.
    #[cycle(cutting)]
    fn cut_before(&mut self, counts: &[u64], size: u64, from: u64, last: u64) -> Result<(), Memory>
        requires size { size ≡ product counts.now }
        requires some { 1 ≤ size }
        ensures row { OnOk result (self.new.row.items ≡ self.old.row.items) }
        ensures found { OnOk result (self.new.found ≡ self.old.found ++ map (λ p. at_row self.old.row.items p) (boxes_before counts.now from last)) }
    {
        let first = from / size;
        if from % size == 0 {
            return self.add_rows(counts, first, last);
        }
        self.cut_row(first, counts, size, from % size, size)?;
        self.add_rows(counts, first + 1, last)
    }

    // Adds the boxes of a range in the row with this index.
    #[cycle(cutting)]
    fn cut_row(
        &mut self,
        index: u64,
        counts: &[u64],
        size: u64,
        from: u64,
        to: u64,
    ) -> Result<(), Memory>
        requires size { size ≡ product counts.now }
        requires order { from ≤ to }
        requires end { to ≤ size }
        ensures row { OnOk result (self.new.row.items ≡ self.old.row.items) }
        ensures found { OnOk result (self.new.found ≡ self.old.found ++ map (λ p. at_row self.old.row.items p) (fill.in_row index (fill.boxes counts.now from to))) }
    {
        self.row.push(index)?;
        self.cut(counts, size, from, to)?;
        self.row.pop();
        Ok(())
    }

    // Adds the one element that the indices of the row name.
    fn add_element(&mut self) -> Result<(), Memory>
        ensures row { OnOk result (self.new.row.items ≡ self.old.row.items) }
        ensures found { OnOk result (self.new.found ≡ self.old.found ++ at_row self.old.row.items (record { start = []; count = [] }) ∷ []) }
    {
        let start = SizeList::from_slice(self.alloc, &self.row)?;
        let count = SizeList::from_vec(vec![in self.alloc; 1; self.row.len()]?);
        self.found.push(Part { start, count })
    }

    // Adds the rows from `first` to below `last`, whole.
    fn add_rows(&mut self, counts: &[u64], first: u64, last: u64) -> Result<(), Memory>
        ensures row { OnOk result (self.new.row.items ≡ self.old.row.items) }
        ensures found { OnOk result (self.new.found ≡ self.old.found ++ map (λ p. at_row self.old.row.items p) (fill.whole_rows counts.now first last)) }
    {
        if last <= first {
            return Ok(());
        }
        let start = start_at(self.alloc, &self.row, first, counts.len())?;
        let count = counts_of(self.alloc, self.row.len(), last - first, counts)?;
        self.found.push(Part { start, count })
    }
}

// The start of whole rows: the outer indices, the first row, and 0 for each inner dimension.
fn start_at(alloc: Global, outer: &[u64], first: u64, inner: usize) -> Result<SizeList, Memory>
    ensures { IfOk result (λ start. start ≡ outer.now ++ first ∷ replicate inner 0) }
{
    let mut start = Vec::from_slice(alloc, outer)?;
    start.push(first)?;
    start.extend_from_slice(&vec![in alloc; 0; inner]?)?;
    Ok(SizeList::from_vec(start))
}

// The counts of so many whole rows: one of each outer dimension.
fn counts_of(alloc: Global, outer: usize, rows: u64, inner: &[u64]) -> Result<SizeList, Memory>
    ensures { IfOk result (λ counts. counts ≡ replicate outer 1 ++ rows ∷ inner.now) }
{
    let mut counts = vec![in alloc; 1; outer]?;
    counts.push(rows)?;
    counts.extend_from_slice(inner)?;
    Ok(SizeList::from_vec(counts))
}
