//! Laws over the puts of an offer.

ghost use Rattle.std.specs.Prelude.{◌≡◌, ℕ, List, map, true, is_some, Some, slice_get};
ghost use Rattle.nc_base.specs.declared.header.Header.{Header};
ghost use Rattle.nc_base.specs.declared.plan.Post.{Post};
ghost use Rattle.serial_spec.specs.SoundHeaders.{is_sound};
ghost use Rattle.serial_spec.specs.SharedByte.{holdings, IsOwnOnce};
ghost use Rattle.vara_extents.specs.Accepted.{IsAccepted};
ghost use Rattle.rank_items.specs.Own.{HasOwnElements};

/// Puts whose requests hold no byte twice hold no element twice.
pub fn own_elements_law()
    ensures { (header : Header) (puts : List Post) (rank : ℕ) → ((i : ℕ) (p : Post) → slice_get puts i ≡ Some p → is_some (slice_get header.vars p.var) ≡ true)
        → IsOwnOnce (holdings header (map (λ p. (rank, p)) puts)) → HasOwnElements puts }
{}

/// Puts whose requests hold no element twice hold no byte twice.
pub fn own_bytes_law()
    ensures { (header : Header) (puts : List Post) → is_sound header ≡ true
        → ((i : ℕ) (p : Post) → slice_get puts i ≡ Some p → IsAccepted header p.var p.region) → HasOwnElements puts
        → (rank : ℕ) → IsOwnOnce (holdings header (map (λ p. (rank, p)) puts)) }
{}
