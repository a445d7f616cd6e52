//! Laws of a redefinition: the new header can be written, and the bytes of the old variables move up without passing one another.
//! Each law is the contract of a function.
#![tactic(auto)]

ghost use Rattle.std.specs.Prelude.{◌≡◌, ◌↔◌, ℕ, ◌<◌, List, filter, flat_map, reverse, true};
ghost use Rattle.nc_base.specs.declared.header.Header.{Header};
ghost use Rattle.nc_base.specs.declared.script.Extra.{Extra};
ghost use Rattle.serial_spec.specs.DeviceCalls.{Slab, highest_first, slabs, stores, zero_calls};
ghost use Rattle.serial_spec.specs.HeaderBytes.{header_len};
ghost use Rattle.serial_spec.specs.SoundHeaders.{is_sound, is_writable, is_redefinable};
ghost use Rattle.serial_spec.specs.Redefinition.{redefined};
ghost use Rattle.cdf_header.specs.Decoded.{BeginsWith};
ghost use Rattle.overlay_laws.specs.Entries.{In};
ghost use Rattle.redef_laws.specs.Applied.{IsApplied};
ghost use Rattle.redef_laws.specs.RisingSlabs.{changes, gaps, rising, IsRisen};
ghost use Rattle.redef_laws.specs.Shifted.{new_end, AreShifted, IsMoved};

/// A sound header that was read can be redefined. A dimension that no variable has may be spelled with a length past the limit; only
/// the reader refuses it.
pub fn opened_law()
    ensures { (header : Header) (bytes : List ℕ) (len : ℕ) → BeginsWith bytes header len → is_sound header ≡ true → is_redefinable header ≡ true }
{}

/// The header of an accepted redefinition can be written.
pub fn written_law()
    ensures { (old new : Header) (extras : List Extra) → IsApplied old extras new → is_writable new ≡ true }
{}

/// The slabs of the old variables move up or stay, and none passes another.
pub fn shift_law()
    ensures { (old new : Header) (extras : List Extra) → IsApplied old extras new → AreShifted (header_len old) (header_len new) (new_end old new) (slabs old new) }
{}

/// The slabs from the lowest up are all slabs; backwards they stand in the order in which they are moved; and between them lie the
/// runs of bytes that get zeros.
pub fn rising_law()
    ensures all { (old new : Header) (s : Slab) → In (rising old new) s ↔ In (slabs old new) s }
    ensures risen { (old new : Header) (extras : List Extra) → IsApplied old extras new → IsRisen (header_len old) (header_len new) (rising old new) }
    ensures falls { (old new : Header) (extras : List Extra) → IsApplied old extras new
        → highest_first (filter changes (slabs old new)) ≡ filter changes (reverse (rising old new)) }
    ensures zeros { (old new : Header) (extras : List Extra) (z : ℕ) → IsApplied old extras new → 0 < z
        → zero_calls z old new ≡ flat_map (λ g. stores z g.0 g.1) (gaps (header_len new) (new_end old new) (rising old new)) }
{}

/// A file in which each slab stands at its new place is the redefined one.
pub fn moved_law()
    ensures { (old new : Header) (extras : List Extra) (file left : List ℕ) → IsApplied old extras new → IsMoved old new file left → left ≡ redefined file old new }
{}
