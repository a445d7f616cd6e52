//! What a redefinition makes of the elements.

ghost use Rattle.std.specs.Prelude.{◌≡◌, ℕ, ◌≤◌, List, length, replicate, take, Some, slice_get};
ghost use Rattle.nc_base.specs.declared.header.Header.{Header};
ghost use Rattle.nc_base.specs.declared.header.Var.{Var};
ghost use Rattle.nc_base.specs.declared.script.Extra.{Extra};
ghost use Rattle.serial_spec.specs.ExternalForm.{size_of};
ghost use Rattle.serial_spec.specs.File.{read};
ghost use Rattle.serial_spec.specs.HeaderBytes.{canon, header_len};
ghost use Rattle.serial_spec.specs.Place.{place};
ghost use Rattle.serial_spec.specs.Redefinition.{redefined, KeepsVars};
ghost use Rattle.whole_run_laws.specs.Redefined.{element_value, IsCounted, IsRedefinition};

/// After a redefinition each element of an old variable has the value that it had, each byte of an element of an added variable is
/// zero, and the new header is at the front. The old variables keep their types and lengths, so their elements are the same.
pub fn redefinition_law()
    ensures old_elements { (old new : Header) (extras : List Extra) (file : List ℕ) (k : ℕ) (v w : Var) (index : List ℕ)
        → IsRedefinition old extras new → slice_get old.vars k ≡ Some v → slice_get new.vars k ≡ Some w → IsCounted old v index
        → element_value new w index (redefined file old new) ≡ element_value old v index file }
    ensures added_elements { (old new : Header) (extras : List Extra) (file : List ℕ) (k : ℕ) (w : Var) (index : List ℕ)
        → IsRedefinition old extras new → length old.vars ≤ k → slice_get new.vars k ≡ Some w → IsCounted new w index
        → read (redefined file old new) (place new w index) (size_of w.kind) ≡ replicate (size_of w.kind) 0 }
    ensures header { (old new : Header) (extras : List Extra) (file : List ℕ) → IsRedefinition old extras new
        → take (header_len new) (redefined file old new) ≡ canon new }
    ensures old_variables { (old new : Header) (extras : List Extra) → IsRedefinition old extras new → KeepsVars old new }
    ensures same_indices { (old new : Header) (extras : List Extra) (k : ℕ) (v w : Var) (index : List ℕ)
        → IsRedefinition old extras new → slice_get old.vars k ≡ Some v → slice_get new.vars k ≡ Some w → IsCounted old v index → IsCounted new w index }
{}
