// What follows of reading and writing headers from the grammar.
ghost use Rattle.std.specs.Prelude.{◌≡◌, ◌≤◌, ◌^◌, ◌++◌, ℕ, List, [], length, take, true};
ghost use Rattle.nc_base.specs.declared.header.Header.{Header};
ghost use Rattle.nc_base.specs.declared.errors.HeaderErr.{HeaderErr};
ghost use Rattle.serial_spec.specs.HeaderBytes.{canon, header_len};
ghost use Rattle.serial_spec.specs.HeaderGrammar.{Spells};
ghost use Rattle.serial_spec.specs.HeaderFaults.{HasFault};
ghost use Rattle.serial_spec.specs.SoundHeaders.{is_writable};
ghost use Rattle.cdf_header.specs.Decoded.{BeginsWith};

/// Bytes begin with one header at most and have one fault at most, and never both. So what `decode` answers, but for
/// want of memory, is decided by the bytes.
pub fn one_answer_law()
    ensures one_header { (bytes : List ℕ) (h k : Header) (n m : ℕ) → BeginsWith bytes h n → BeginsWith bytes k m → (h ≡ k) × (n ≡ m) }
    ensures one_fault { (bytes : List ℕ) (e f : HeaderErr) → HasFault bytes e → HasFault bytes f → e ≡ f }
    ensures never_both { (bytes : List ℕ) (h : Header) (n : ℕ) (e : HeaderErr) → BeginsWith bytes h n → HasFault bytes e → ⊥ }
{}

/// What `encode` writes of a header is read as that header, whatever follows it. The bytes that `decode` is given are the
/// first of a dataset, at most 2^20.
pub fn written_law()
    ensures whole { (header : Header) (more : List ℕ) → is_writable header ≡ true → BeginsWith (canon header ++ more) header (header_len header) }
    ensures cut { (header : Header) (more : List ℕ) → is_writable header ≡ true → BeginsWith (take (2 ^ 20) (canon header ++ more)) header (header_len header) }
{}

/// No spelling of a header begins another.
pub fn no_longer_spelling_law()
    ensures { (h k : Header) (bytes more : List ℕ) → Spells h bytes → Spells k (bytes ++ more) → more ≡ [] }
{}
