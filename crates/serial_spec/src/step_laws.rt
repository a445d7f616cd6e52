//! Laws over the steps of a file.

ghost use Rattle.std.specs.Prelude.{◌≡◌, ℕ, ◌+◌, ◌<◌, ◌≤◌, List, Some, None, false, flat_map, ◌⊎◌, ◌==◌, true, slice_get};
ghost use Rattle.serial_spec.specs.File.{at};
ghost use Rattle.serial_spec.specs.HeaderBytes.{count_width};
ghost use Rattle.serial_spec.specs.SoundHeaders.{is_sound};
ghost use Rattle.serial_spec.specs.FileStep.{meeting, solo, puts_of, Setting, Counted, after_puts};
ghost use Rattle.serial_spec.specs.SharedByte.{covered, Holds, Key, IsSharedPair, IsUnshared, Holding, shared_pair_of, Puts, said_by_puts, bytes_of};
ghost use Rattle.nc_base.specs.declared.answer.Pair.{Pair};
ghost use Rattle.nc_base.specs.declared.step.Offer.{Offer};
ghost use Rattle.std.specs.List.{list_any, enumerate_from, AllByRecursion};
ghost use Rattle.std.specs.Int.{byte_len};
ghost use Rattle.serial_spec.specs.Said.{said_at, said_by, byte_or, Cell, write_cells};
ghost use Rattle.nc_base.specs.declared.header.Header.{Header};
ghost use Rattle.nc_base.specs.declared.header.Var.{Var};
ghost use Rattle.nc_base.specs.declared.request.Region.{Region};
ghost use Rattle.nc_base.specs.declared.request.Direction.{Direction};
ghost use Rattle.nc_base.specs.declared.request.Direction.TheVariants.{Put};
ghost use Rattle.nc_base.specs.declared.plan.Post.{Post};
ghost use Rattle.nc_base.specs.declared.answer.Code.TheVariants.{Ok};
ghost use Rattle.serial_spec.specs.Layout.{end_of};
ghost use Rattle.serial_spec.specs.Place.{IsElementBelow};
ghost use Rattle.serial_spec.specs.Request.{elements};
ghost use Rattle.serial_spec.specs.RegionCheck.{check_var, check};
ghost use Rattle.serial_spec.specs.Records.{records_of, needed, needed_by};

/// The pair is the least byte that two requests hold, with the two least of them, and there is none where no byte is shared.
pub fn shared_pair_law()
    ensures found { (held : List Holding) (p : Pair) → shared_pair_of held ≡ Some p → IsSharedPair held p }
    ensures only { (held : List Holding) (p : Pair) → IsSharedPair held p → shared_pair_of held ≡ Some p }
    ensures none { (held : List Holding) → shared_pair_of held ≡ None → (x : ℕ) → IsUnshared held x }
    ensures same { (a b : List Holding) → ((k : Key) (x : ℕ) → Holds a k x → Holds b k x) → ((k : Key) (x : ℕ) → Holds b k x → Holds a k x)
        → shared_pair_of a ≡ shared_pair_of b }
{}

/// A byte that no element of a step's puts holds, and that is not of the record count's field, stays.
pub fn steps_keep()
    ensures meeting { (s : Setting) (offers : List Offer) (c : Counted) (x : ℕ)
        → list_any (λ y. y == x) (covered s.header (flat_map puts_of (enumerate_from 0 offers))) ≡ false
        → (x < 4) ⊎ (4 + byte_len (count_width s.header.version) ≤ x) → at (meeting s offers c).0.file x ≡ at c.file x }
    ensures solo { (s : Setting) (r : ℕ) (o : Offer) (c : Counted) (x : ℕ)
        → list_any (λ y. y == x) (covered s.header (puts_of (r, o))) ≡ false → at (solo s r o c).0.file x ≡ at c.file x }
{}

/// A byte after the puts of a step is what the last put that holds it says, else the old byte; and so of any cells.
pub fn puts_say()
    ensures puts { (s : Setting) (puts : Puts) (file : List ℕ) (x : ℕ)
        → at (after_puts s puts None file) x ≡ byte_or (said_at (said_by_puts s.header puts) x) (at file x) }
    ensures cells { (file : List ℕ) (cells : List Cell) (x : ℕ) → at (write_cells file cells) x ≡ byte_or (said_at (said_by cells) x) (at file x) }
{}

/// The elements of a region that is accepted are elements of the variable, and the bytes of accepted puts lie below the end of
/// the file for the records that they need.
pub fn accepted_law()
    ensures elements { (header : Header) (k : ℕ) (v : Var) (g : Region) (known : ℕ) (way : Direction) → is_sound header ≡ true
        → slice_get header.vars k ≡ Some v → check_var header v g known way ≡ Ok → AllByRecursion (IsElementBelow header v (records_of header v g)) (elements g) }
    ensures post { (header : Header) (first : ℕ) (post : Post) (known : ℕ) (way : Direction) → is_sound header ≡ true
        → check header post.var post.region known way ≡ Ok → AllByRecursion (λ x. x < end_of header first (needed header post)) (bytes_of header post) }
    ensures puts { (header : Header) (first : ℕ) (puts : Puts) (n : ℕ) (known : ℕ × Post → ℕ) → is_sound header ≡ true
        → AllByRecursion (λ p. check header p.1.var p.1.region (known p) Put ≡ Ok) puts → needed_by header puts ≤ n
        → AllByRecursion (λ x. x < end_of header first n) (covered header puts) }
{}
