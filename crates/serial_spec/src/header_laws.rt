//! Laws over the grammar of headers.

ghost use Rattle.std.specs.Prelude.{◌≡◌, ℕ, ◌+◌, List, ◌++◌, length, Some, true};
ghost use Rattle.serial_spec.specs.HeaderBytes.{canon, header_len};
ghost use Rattle.serial_spec.specs.HeaderGrammar.{Spells};
ghost use Rattle.serial_spec.specs.HeaderFaults.{HasFieldFault, field_fault};
ghost use Rattle.serial_spec.specs.SoundHeaders.{is_writable, is_redefinable};
ghost use Rattle.nc_base.specs.declared.errors.HeaderErr.{HeaderErr};
ghost use Rattle.nc_base.specs.declared.header.Header.{Header};
ghost use Rattle.serial_spec.specs.Layout.{sharing, Shares, IsSharing};

/// The function finds the fault after the longest run of right fields, and there is no other.
pub fn header_fault_law()
    ensures found { (bytes : List ℕ) (e : HeaderErr) → field_fault bytes ≡ Some e → HasFieldFault bytes e }
    ensures only { (bytes : List ℕ) (e : HeaderErr) → HasFieldFault bytes e → field_fault bytes ≡ Some e }
{}

/// What is written of a header is a spelling of it, also where only its vsizes pass their fields, and every spelling has its length.
pub fn spelling_law()
    ensures written { (header : Header) → is_writable header ≡ true → Spells header (canon header) }
    ensures redefinable { (header : Header) → is_redefinable header ≡ true → Spells header (canon header) }
    ensures long { (header : Header) (bytes : List ℕ) → Spells header bytes → length bytes ≡ header_len header }
{}

/// No spelling begins another, and bytes are a spelling of one header.
pub fn one_spelling_law()
    ensures { (h k : Header) (a b r s : List ℕ) → Spells h a → Spells k b → a ++ r ≡ b ++ s → (h ≡ k) × (a ≡ b) }
{}

/// The pair of variables that a header is refused for is the least that shares a byte, and there is none where no two share.
pub fn sharing_law()
    ensures found { (header : Header) (first k m : ℕ) → sharing header first ≡ Some (k, m) → IsSharing header first k m }
    ensures only { (header : Header) (first k m : ℕ) → IsSharing header first k m → sharing header first ≡ Some (k, m) }
    ensures none { (header : Header) (first : ℕ) → sharing header first ≡ None → (k m : ℕ) → Shares header first k m → ⊥ }
{}
