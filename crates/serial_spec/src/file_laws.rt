//! Laws over files, values and places.

ghost use Rattle.std.specs.Prelude.{◌≡◌, ℕ, ◌+◌, ◌<◌, ◌≤◌, List, length, Some, true, slice_get};
ghost use Rattle.serial_spec.specs.File.{at, written};
ghost use Rattle.serial_spec.specs.ExternalForm.{fits, ext, val};
ghost use Rattle.serial_spec.specs.HeaderBytes.{header_len};
ghost use Rattle.serial_spec.specs.SoundHeaders.{is_sound};
ghost use Rattle.serial_spec.specs.Layout.{product, end_of};
ghost use Rattle.serial_spec.specs.Request.{coordinates};
ghost use Rattle.serial_spec.specs.Place.{row, IsIndex, IsElement, AreApart, place, IsElementBelow};
ghost use Rattle.nc_base.specs.declared.header.NcType.{NcType};
ghost use Rattle.nc_base.specs.declared.request.Value.{Value};
ghost use Rattle.nc_base.specs.declared.header.Header.{Header};
ghost use Rattle.nc_base.specs.declared.header.Var.{Var};
ghost use Rattle.serial_spec.specs.Fill.{boxes, AreBoxes};
ghost use Rattle.serial_spec.specs.RegionCheck.{known_lengths};
ghost use Rattle.serial_spec.specs.Redefinition.{redefined, redefined_header, KeepsVars, IsRedefined};
ghost use Rattle.nc_base.specs.declared.script.Extra.{Extra};
ghost use Rattle.serial_spec.specs.ExternalForm as external;

/// A write keeps every other byte.
pub fn write_keeps()
    ensures before { (file bytes : List ℕ) (x y : ℕ) → y < x → at (written file x bytes) y ≡ at file y }
    ensures after { (file bytes : List ℕ) (x y : ℕ) → x + length bytes ≤ y → at (written file x bytes) y ≡ at file y }
{}

/// The value of a value's external form is the value.
pub fn values_come_back()
    ensures { (kind : NcType) (v : Value) → fits kind v ≡ true → val kind (ext kind v) ≡ v }
{}

/// No two indices of a variable stand at one place of the row-major order, and none past the last.
#[tactic(auto, using(crate::proofs::RowLaws::row_below, crate::proofs::RowLaws::row_once))]
pub fn row_major()
    ensures below { (lengths index : List ℕ) → IsIndex lengths index → row lengths index < product lengths }
    ensures once { (lengths a b : List ℕ) → IsIndex lengths a → IsIndex lengths b → row lengths a ≡ row lengths b → a ≡ b }
{}

/// The elements below these counts stand in row-major order, each at its number.
pub fn elements_in_order()
    ensures number { (counts : List ℕ) → length (coordinates counts) ≡ product counts }
    ensures place { (counts index : List ℕ) → IsIndex counts index → slice_get (coordinates counts) (row counts index) ≡ Some index }
{}

/// Elements of a sound header's variables share no byte, and none shares one with the header.
pub fn elements_law()
    ensures apart { (header : Header) (k m : ℕ) (v w : Var) (i j : List ℕ) → is_sound header ≡ true
        → slice_get header.vars k ≡ Some v → slice_get header.vars m ≡ Some w → IsElement header v i → IsElement header w j
        → ((k ≡ m) × (i ≡ j) → ⊥) → AreApart (place header v i) (external.size_of v.kind) (place header w j) (external.size_of w.kind) }
    ensures past_header { (header : Header) (k : ℕ) (v : Var) (i : List ℕ) → is_sound header ≡ true
        → slice_get header.vars k ≡ Some v → IsElement header v i → header_len header ≤ place header v i }
{}

/// The boxes of a range of row-major numbers have just the indices with these numbers, in order.
pub fn boxes_law()
    ensures { (lengths : List ℕ) (from to : ℕ) → from ≤ to → to ≤ product lengths → AreBoxes lengths from to (boxes lengths from to) }
{}

/// An element in a record below n ends within the file of n records, and the end of a file grows with its records.
pub fn elements_end()
    ensures inside { (header : Header) (first n k : ℕ) (v : Var) (index : List ℕ) → slice_get header.vars k ≡ Some v → IsElementBelow header v n index
        → place header v index + external.size_of v.kind ≤ end_of header first n }
    ensures grows { (header : Header) (first n m : ℕ) → n ≤ m → end_of header first n ≤ end_of header first m }
{}

/// An index below the lengths of a sound header's variable, the record dimension's being a count, is an element in a record below it.
pub fn known_elements()
    ensures { (header : Header) (k : ℕ) (v : Var) (known : ℕ) (index : List ℕ) → is_sound header ≡ true → slice_get header.vars k ≡ Some v
        → IsIndex (known_lengths header v known) index → IsElementBelow header v known index }
{}

/// A redefined file has the new header at its front, every old element at its new place, zeros elsewhere below its end, and the
/// old bytes past it, where the new header is sound and keeps the old variables; and what is added to a header keeps them.
pub fn redefined_law()
    ensures keeps { (old : Header) (extras : List Extra) → is_sound old ≡ true → KeepsVars old (redefined_header old extras) }
    ensures file { (file : List ℕ) (old new : Header) → is_sound new ≡ true → KeepsVars old new → IsRedefined old new file (redefined file old new) }
{}
