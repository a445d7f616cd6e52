//! What is filled, and stays so.

ghost use Rattle.std.specs.Prelude.{◌≡◌, ℕ, ◌+◌, ◌<◌, List, [], ◌∷◌, ◌++◌, flat_map, length, true, false, None, Some, slice_get};
ghost use Rattle.std.specs.List.{range_with_len};
ghost use Rattle.nc_base.specs.declared.answer.Code.TheVariants.{Ok};
ghost use Rattle.nc_base.specs.declared.header.Header.{Header};
ghost use Rattle.nc_base.specs.declared.header.Var.{Var};
ghost use Rattle.nc_base.specs.declared.script.Script.{Script};
ghost use Rattle.nc_base.specs.declared.step.Mark.{Mark};
ghost use Rattle.nc_base.specs.declared.step.Mark.TheVariants.{Meet};
ghost use Rattle.nc_base.specs.declared.step.Offer.{Offer};
ghost use Rattle.serial_spec.specs.ExternalForm.{size_of};
ghost use Rattle.serial_spec.specs.File.{read};
ghost use Rattle.serial_spec.specs.FileStep.{Counted, Setting, meeting, told};
ghost use Rattle.serial_spec.specs.Fill.{box_indices, fill_bytes, filled};
ghost use Rattle.serial_spec.specs.SoundHeaders.{is_sound};
ghost use Rattle.serial_spec.specs.History.{IsLegal};
ghost use Rattle.serial_spec.specs.Lawful.{is_lawful};
ghost use Rattle.serial_spec.specs.Layout.{inner_lengths, is_record};
ghost use Rattle.serial_spec.specs.Place.{IsIndex, place};
ghost use Rattle.serial_spec.specs.Looks.{find_var, look_record};
ghost use Rattle.serial_spec.specs.RankMachine.{code_of_look, posts_of};
ghost use Rattle.serial_spec.specs.Request.{coordinates};
ghost use Rattle.serial_spec.specs.SerialEnd.{Going, serial, state_after};
ghost use Rattle.serial_spec.specs.SerialEnd as serial_end;
ghost use Rattle.whole_run_laws.specs.Completed.{completed_puts, is_held, puts_met};
ghost use Rattle.whole_run_laws.specs.Told.{told_at};
ghost use Rattle.whole_run_laws.specs.Filling.{AllFill, filling, Fills, share_boxes};

/// The shares of all ranks, one after another, have just the indices of a record, in order; and a rank whose filling is not
/// refused puts its share.
pub fn shares_law()
    ensures cover { (lengths : List ℕ) (ranks : ℕ) → 0 < ranks
        → flat_map (λ r. flat_map box_indices (share_boxes lengths r ranks)) (range_with_len 0 ranks) ≡ coordinates lengths }
    ensures puts { (header : Header) (k number r ranks : ℕ) (v : Var) → code_of_look (look_record header k number r ranks v) ≡ Ok
        → posts_of (look_record header k number r ranks v) ≡ filling header k v number ranks r }
{}

/// After a meeting in which every rank fills its share of one record, and none is told a pair, each element of the record has
/// the fill value.
pub fn record_law()
    ensures { (s : Setting) (offers : List Offer) (c : Counted) (k number : ℕ) (v : Var) (index : List ℕ)
        → is_sound s.header ≡ true → slice_get s.header.vars k ≡ Some v → is_record s.header v ≡ true → AllFill s.header k v number offers
        → 0 < length offers → told s (puts_met offers) ≡ None → IsIndex (inner_lengths s.header v) index
        → read (meeting s offers c).0.file (place s.header v (number ∷ index)) (size_of v.kind) ≡ fill_bytes v }
{}

/// Where every rank's next collective call fills its share of one record, is not refused, and tells no pair, each element of
/// the record has the fill value after that meeting.
pub fn fill_call_law()
    ensures { (script : Script) (header : Header) (file : List ℕ) (before later : List Mark) (j k number : ℕ) (name : List ℕ) (v : Var) (index : List ℕ)
        → is_sound header ≡ true → is_lawful script ≡ true → IsLegal script (before ++ Meet j ∷ later)
        → find_var header name ≡ Some k → slice_get header.vars k ≡ Some v
        → ((r : ℕ) (g : Going) → slice_get (state_after script header file before).1 r ≡ Some g → Fills header name number script.ranks r g)
        → told_at script header file before (Meet j) ≡ None
        → IsIndex (inner_lengths header v) index
        → read (state_after script header file (before ++ Meet j ∷ [])).0.file (place header v (number ∷ index)) (size_of v.kind) ≡ fill_bytes v }
{}

/// In a filled dataset each element of a fixed variable has the fill value when the ranks begin, and at the end where no completed
/// put holds one of its bytes.
pub fn dataset_law()
    ensures begins { (header : Header) (file : List ℕ) (k : ℕ) (v : Var) (index : List ℕ) → is_sound header ≡ true → slice_get header.vars k ≡ Some v
        → is_record header v ≡ false → IsIndex (inner_lengths header v) index → read (filled header file) (place header v index) (size_of v.kind) ≡ fill_bytes v }
    ensures ends { (script : Script) (header : Header) (file : List ℕ) (order : List Mark) (k : ℕ) (v : Var) (index : List ℕ)
        → script.fresh ≡ true → script.filled ≡ true → is_sound header ≡ true → slice_get header.vars k ≡ Some v
        → is_record header v ≡ false → IsIndex (inner_lengths header v) index
        → ((i : ℕ) → i < size_of v.kind
        → is_held header (completed_puts script header (serial_end.start script header file) order) (place header v index + i) ≡ false)
        → read (serial script header file order).bytes (place header v index) (size_of v.kind) ≡ fill_bytes v }
{}
