//! Laws over the extents of regions.

ghost use Rattle.std.specs.Prelude.{◌≡◌, ℕ, ◌+◌, ◌*◌, ◌≤◌, List, length, flat_map, true, Some, slice_get};
ghost use Rattle.std.specs.List.{range_with_len, AllByRecursion};
ghost use Rattle.nc_base.specs.declared.header.Header.{Header};
ghost use Rattle.nc_base.specs.declared.header.Var.{Var};
ghost use Rattle.nc_base.specs.declared.plan.Post.{Post};
ghost use Rattle.nc_base.specs.declared.request.Region.{Region};
ghost use Rattle.serial_spec.specs.ExternalForm.{size_of};
ghost use Rattle.serial_spec.specs.SoundHeaders.{is_sound};
ghost use Rattle.serial_spec.specs.Layout.{product, end_of};
ghost use Rattle.serial_spec.specs.Records.{records_of};
ghost use Rattle.serial_spec.specs.Request.{places, put};
ghost use Rattle.serial_spec.specs.Said.{write_cells};
ghost use Rattle.serial_spec.specs.SharedByte.{bytes_of};
ghost use Rattle.vara_extents.specs.Accepted.{IsAccepted};
ghost use Rattle.vara_extents.specs.Joined.{extents_of, cut_by, IsJoined};
ghost use Rattle.serial_spec.specs.Extents.{spans, IsOnce};

/// The bytes of a region's extents, in order, are those of its elements in row-major order. No extent is empty, and none
/// begins where the one before it ends. No byte of an accepted region, or of a post of one, stands twice, and its extents end
/// where the file does for the records that the region needs, or before.
pub fn extents_law()
    ensures bytes { (header : Header) (v : Var) (g : Region)
        → spans (extents_of header v g) ≡ flat_map (λ x. range_with_len x (size_of v.kind)) (places header v g) }
    ensures some { (header : Header) (v : Var) (g : Region) → AllByRecursion (λ e. 1 ≤ e.len) (extents_of header v g) }
    ensures joined { (header : Header) (v : Var) (g : Region) → IsJoined (extents_of header v g) }
    ensures once { (header : Header) (k : ℕ) (v : Var) (g : Region) → is_sound header ≡ true → slice_get header.vars k ≡ Some v
        → IsAccepted header k g → IsOnce (spans (extents_of header v g)) }
    ensures post { (header : Header) (post : Post) → is_sound header ≡ true → IsAccepted header post.var post.region
        → IsOnce (bytes_of header post) }
    ensures inside { (header : Header) (first k : ℕ) (v : Var) (g : Region) → is_sound header ≡ true → slice_get header.vars k ≡ Some v
        → IsAccepted header k g → AllByRecursion (λ e. e.at + e.len ≤ end_of header first (records_of header v g)) (extents_of header v g) }
{}

/// A put of a request's bytes is done extent by extent, each with the next of the bytes.
pub fn writing_law()
    ensures { (header : Header) (v : Var) (g : Region) (file bytes : List ℕ) → length bytes ≡ product g.count * size_of v.kind
        → write_cells file (cut_by (extents_of header v g) bytes) ≡ put header v g bytes file }
{}
