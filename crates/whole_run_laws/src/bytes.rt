//! What a run leaves of each byte.

ghost use Rattle.std.specs.Prelude.{◌≡◌, ℕ, ◌<◌, ◌≤◌, List, length, false, true};
ghost use Rattle.nc_base.specs.declared.header.Header.{Header};
ghost use Rattle.nc_base.specs.declared.script.Script.{Script};
ghost use Rattle.nc_base.specs.declared.step.Mark.{Mark};
ghost use Rattle.serial_spec.specs.File.{at};
ghost use Rattle.serial_spec.specs.HeaderBytes.{header_len};
ghost use Rattle.serial_spec.specs.SoundHeaders.{is_sound};
ghost use Rattle.serial_spec.specs.History.{IsLegal};
ghost use Rattle.serial_spec.specs.Lawful.{is_lawful};
ghost use Rattle.serial_spec.specs.Said.{said_at, byte_or};
ghost use Rattle.serial_spec.specs.SharedByte.{said_by_puts};
ghost use Rattle.serial_spec.specs.SerialEnd.{serial, serial_from, start};
ghost use Rattle.whole_run_laws.specs.Completed.{completed_puts, is_held, IsBesideCount};

/// A byte at the end of a run is that of the last completed put that holds it; one that none holds is as it was, or zero
/// where the file grew, and no byte falls off. The record count's own bytes are left out.
pub fn bytes_law()
    ensures last_put { (script : Script) (header : Header) (file : List ℕ) (order : List Mark) (x : ℕ) → IsBesideCount header x
        → at (serial_from script header file order).bytes x
        ≡ byte_or (said_at (said_by_puts header (completed_puts script header file order)) x) (at file x) }
    ensures as_it_was { (script : Script) (header : Header) (file : List ℕ) (order : List Mark) (x : ℕ) → IsBesideCount header x
        → is_held header (completed_puts script header file order) x ≡ false → at (serial_from script header file order).bytes x ≡ at file x }
    ensures zero_where_it_grew { (script : Script) (header : Header) (file : List ℕ) (order : List Mark) (x : ℕ) → IsBesideCount header x
        → is_held header (completed_puts script header file order) x ≡ false → length file ≤ x → at (serial_from script header file order).bytes x ≡ 0 }
    ensures of_an_opened_dataset { (script : Script) (header : Header) (file : List ℕ) (order : List Mark) (x : ℕ) → script.fresh ≡ false → IsBesideCount header x
        → is_held header (completed_puts script header (start script header file) order) x ≡ false → at (serial script header file order).bytes x ≡ at file x }
    ensures no_shorter { (script : Script) (header : Header) (file : List ℕ) (order : List Mark) → length file ≤ length (serial_from script header file order).bytes }
{}

/// No completed put holds a byte of the header, so at the end its bytes are as they were, but for those of the record count.
pub fn header_law()
    ensures past_header { (script : Script) (header : Header) (file : List ℕ) (order : List Mark) (x : ℕ) → is_sound header ≡ true → is_lawful script ≡ true
        → IsLegal script order → is_held header (completed_puts script header file order) x ≡ true → header_len header ≤ x }
    ensures header_stays { (script : Script) (header : Header) (file : List ℕ) (order : List Mark) (x : ℕ) → is_sound header ≡ true → is_lawful script ≡ true
        → IsLegal script order → IsBesideCount header x → x < header_len header → at (serial_from script header file order).bytes x ≡ at file x }
{}
