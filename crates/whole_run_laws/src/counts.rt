//! What a run makes of the record count.

ghost use Rattle.std.specs.Prelude.{◌≡◌, ℕ, ◌<◌, List, max, true};
ghost use Rattle.std.specs.Int.{byte_len};
ghost use Rattle.nc_base.specs.declared.header.Header.{Header};
ghost use Rattle.nc_base.specs.declared.script.Script.{Script};
ghost use Rattle.nc_base.specs.declared.step.Mark.{Mark};
ghost use Rattle.serial_spec.specs.File.{read};
ghost use Rattle.serial_spec.specs.HeaderBytes.{count, count_width};
ghost use Rattle.serial_spec.specs.SoundHeaders.{is_sound};
ghost use Rattle.serial_spec.specs.History.{IsLegal};
ghost use Rattle.serial_spec.specs.Lawful.{is_lawful};
ghost use Rattle.serial_spec.specs.Records.{needed_by};
ghost use Rattle.serial_spec.specs.SerialEnd.{serial_from};
ghost use Rattle.whole_run_laws.specs.Completed.{completed_puts};

/// The record count at the end of a run is the greater of the old one and the greatest that a completed put needed; a request
/// that was cancelled or left needs none.
pub fn count_law()
    ensures greatest_needed { (script : Script) (header : Header) (file : List ℕ) (order : List Mark) → is_lawful script ≡ true → IsLegal script order
        → (serial_from script header file order).records ≡ max header.records (needed_by header (completed_puts script header file order)) }
{}

/// The header has the record count of the end where that grew; else the count's bytes are as they were.
pub fn field_law()
    ensures has_count { (script : Script) (header : Header) (file : List ℕ) (order : List Mark) → is_sound header ≡ true → is_lawful script ≡ true
        → IsLegal script order → header.records < (serial_from script header file order).records
        → read (serial_from script header file order).bytes 4 (byte_len (count_width header.version))
        ≡ count header.version (serial_from script header file order).records }
    ensures as_it_was { (script : Script) (header : Header) (file : List ℕ) (order : List Mark) → is_sound header ≡ true → is_lawful script ≡ true
        → IsLegal script order → (serial_from script header file order).records ≡ header.records
        → read (serial_from script header file order).bytes 4 (byte_len (count_width header.version)) ≡ read file 4 (byte_len (count_width header.version)) }
{}
