// The slabs of the old variables, with their places in both files.
ghost use Rattle.std.specs.Prelude.{◌≡◌, ◌+◌, ◌*◌, ◌<◌, ◌≤◌, ◌^◌, ◌++◌, ◌∷◌, [], ℕ, length, map, slice_get, true, IfOk, OnOk, Some, if◌then◌else◌};
ghost use Rattle.std.specs.List.Sorted.{IsSortedByKey, IsStableByKey};
ghost use Rattle.std.specs.Ordering.{nat_cmp};
ghost use Rattle.redef_mover.specs.declared.slabs.Shift.{Shift};
ghost use Rattle.overlay_laws.specs.Entries.{In};
ghost use Rattle.redef_laws.specs.RisingSlabs.{first_slab, lowest_first, rising, IsRisen};
ghost use Rattle.redef_mover.specs.Moves.{first_slabs, further, listed, slab_of, window, AreSteps};
ghost use Rattle.serial_spec.specs.DeviceCalls.{Slab};
ghost use Rattle.serial_spec.specs.SoundHeaders.{is_sound};

use nc_base::{Header, Memory, Var};
use std::alloc::Global;
use var_layout::{is_record, recsize, slab};

/// A slab, or a part of one: its places in the old file and in the new one, and its bytes.
#[derive(Clone, Copy, Debug, PartialEq, Eq)]
pub struct Shift {
    pub from: u64,
    pub to: u64,
    pub len: u64,
}

impl Shift {
    /// Window `number` from the top, where windows have `size` bytes.
    pub fn window(&self, size: u64, number: u64) -> Shift
        requires inside { number * size ≤ self.now.len }
        requires old_end { self.now.from + self.now.len < 2 ^ 64 }
        requires end { self.now.to + self.now.len < 2 ^ 64 }
        ensures { slab_of result ≡ window size (slab_of self.now) number }
    {
        let top = self.len - number * size;
        let len = size.min(top);
        Shift {
            from: self.from + (top - len),
            to: self.to + (top - len),
            len,
        }
    }

    /// The same slab in a record, so much further than in record 0.
    pub fn further(&self, offset: Offset) -> Shift
        requires old_end { self.now.from + offset.old < 2 ^ 64 }
        requires end { self.now.to + offset.new < 2 ^ 64 }
        ensures { slab_of result ≡ further offset.old offset.new (slab_of self.now) }
    {
        Shift {
            from: self.from + offset.old,
            to: self.to + offset.new,
            len: self.len,
        }
    }
}

/// A number of bytes in the old file, and one in the new file.
#[derive(Clone, Copy, Debug, PartialEq, Eq)]
pub struct Offset {
    pub old: u64,
    pub new: u64,
}

impl Offset {
    pub const NONE: Offset = Offset { old: 0, new: 0 };

    pub fn times(self, count: u64) -> Offset
        requires old { count * self.old < 2 ^ 64 }
        requires new { count * self.new < 2 ^ 64 }
        ensures old { result.old ≡ count * self.old }
        ensures new { result.new ≡ count * self.new }
    {
        Offset {
            old: count * self.old,
            new: count * self.new,
        }
    }
}

/// The slabs of the old variables, the lowest first: those of the fixed variables, and those of the record variables in record 0.
#[derive(Drop)]
pub struct Slabs {
    pub fixed: Vec<Shift>,
    pub records: Vec<Shift>,
    /// How many records the record variables have. It is 0 where there is no such variable.
    pub count: u64,
    /// From one record to the next.
    pub step: Offset,
}

impl Slabs {
    pub fn new(alloc: Global, old: &Header, new: &Header) -> Result<Slabs, Memory>
        requires sound { is_sound old.now ≡ true }
        requires new_sound { is_sound new.now ≡ true }
        requires risen { (a : ℕ) × (b : ℕ) × IsRisen a b (rising old.now new.now) }
        requires short { (s : Slab) → In (rising old.now new.now) s → s.to + s.len < 2 ^ 62 }
        ensures all { IfOk result (λ slabs. listed slabs ≡ rising old.now new.now) }
        ensures steps { IfOk result (λ slabs. AreSteps slabs.step slabs.count) }
    {
        let fixed = lowest_first(alloc, old, new, false)?;
        let records = lowest_first(alloc, old, new, true)?;
        let count = record_count(&records, old.records);
        let step = Offset {
            old: recsize(old),
            new: recsize(new),
        };
        Ok(Slabs {
            fixed,
            records,
            count,
            step,
        })
    }
}

// How many records are to be moved: none where there is no record variable.
fn record_count(records: &[Shift], count: u64) -> u64
    ensures none { records.now ≡ [] → result ≡ 0 }
    ensures some { 0 < length records.now → result ≡ count }
{
    if records.is_empty() { 0 } else { count }
}

// The slabs of the fixed variables, or those of the record variables in record 0, the lowest first.
fn lowest_first(
    alloc: Global,
    old: &Header,
    new: &Header,
    records: bool,
) -> Result<Vec<Shift>, Memory>
    requires sound { is_sound old.now ≡ true }
    ensures { IfOk result (λ slabs. map slab_of slabs.items ≡ lowest_first (first_slabs old.now new.now records)) }
{
    let mut slabs = first_slabs(alloc, old, new, records)?;
    sort_by_place(&mut slabs)?;
    Ok(slabs)
}

// Sorts slabs by their old places, those of one place in the order in which they stand.
fn sort_by_place(slabs: &mut Vec<Shift>) -> Result<(), Memory>
    ensures sorted { OnOk result (IsSortedByKey (λ (s : Shift). s.from) nat_cmp slabs.new.items) }
    ensures stable { OnOk result (IsStableByKey (λ (s : Shift). s.from) nat_cmp slabs.old.items slabs.new.items) }
{
    slabs.sort_by_key(
        |slab: &Shift| -> u64
            ensures { result ≡ slab.now.from }
        { slab.from },
    )?;
    Ok(())
}

// The slabs of one kind in the order of the variables.
fn first_slabs(
    alloc: Global,
    old: &Header,
    new: &Header,
    records: bool,
) -> Result<Vec<Shift>, Memory>
    requires sound { is_sound old.now ≡ true }
    ensures { IfOk result (λ slabs. map slab_of slabs.items ≡ first_slabs old.now new.now records) }
{
    let mut slabs = Vec::new(alloc);
    let vars = old.vars.as_slice();
    let moved = new.vars.as_slice();
    for (number, (var, moved)) in vars.iter().zip(moved).enumerate() {
        let slab = first_slab(old, number, var, moved);
        push_if(&mut slabs, slab, is_record(old, var) == records)?;
    }
    Ok(slabs)
}

fn push_if(slabs: &mut Vec<Shift>, slab: Shift, wanted: bool) -> Result<(), Memory>
    ensures { OnOk result (slabs.new.items ≡ slabs.old.items ++ (if wanted then slab ∷ [] else [])) }
{
    if wanted {
        slabs.push(slab)?;
    }
    Ok(())
}

// The slab of a variable, or that of record 0.
fn first_slab(old: &Header, number: usize, var: &Var, moved: &Var) -> Shift
    requires sound { is_sound old.now ≡ true }
    requires there { slice_get old.now.vars number ≡ Some var.now }
    ensures { slab_of result ≡ first_slab old.now (var.now, moved.now) }
{
    Shift {
        from: var.begin,
        to: moved.begin,
        len: slab(old, number),
    }
}
