//! Laws by which the bytes of a step are those of cells, windows and pieces.
#![tactic(auto)]

ghost use Rattle.std.specs.Prelude.{◌≡◌, ℕ, ◌+◌, ◌-◌, ◌<◌, ◌≤◌, List, length, map, fold, flat_map, Some, None, true, slice_get, ◌*◌, ◌/◌, ◌==◌, filter, nat_lt, nat_le};
ghost use Rattle.serial_spec.specs.File.{at, longer, written, read};
ghost use Rattle.serial_spec.specs.Said.{said_at, said_by, byte_or, Says, IsOneValued, Cell, write_cells, IsWithin, IsFrom, moved_down};
ghost use Rattle.overlay_laws.specs.Windows.{clips, IsPart, AreParts, SomeSays, IsInOne, HasEach, all_read_overlaid};
ghost use Rattle.std.specs.List.Sorted.{IsPermutation};
ghost use Rattle.nc_base.specs.declared.header.Header.{Header};
ghost use Rattle.nc_base.specs.declared.plan.Post.{Post};
ghost use Rattle.nc_base.specs.declared.plan.Owned.{Owned};
ghost use Rattle.serial_spec.specs.SharedByte.{Puts, bytes_of, shared_pair, shared_pair_of, holdings, holdings_of_entries, covered, said_by_puts, IsOwnOnce};
ghost use Rattle.serial_spec.specs.DeviceCalls.{in_order, collective_windows, sieving_windows, windows, first_of};
ghost use Rattle.nc_base.specs.declared.script.Hints.{Hints};
ghost use Rattle.overlay_laws.specs.Hulls.{hulls, IsAscending, written_over, AreHints};
ghost use Rattle.serial_spec.specs.FileStep.{Setting, put_post, get_post, end_for, after_puts};
ghost use Rattle.serial_spec.specs.Records.{needed_by};
ghost use Rattle.overlay_laws.specs.Steps.{HasRoom, LieApart, HaveStrides};
ghost use Rattle.nc_base.specs.declared.request.Region.{Region};
ghost use Rattle.nc_base.specs.declared.header.Var.{Var};
ghost use Rattle.serial_spec.specs.Request.{elements, places};
ghost use Rattle.serial_spec.specs.Place.{IsElement};
ghost use Rattle.serial_spec.specs.ExternalForm.{size_of};
ghost use Rattle.serial_spec.specs.SoundHeaders.{is_sound};
ghost use Rattle.std.specs.List.{range_with_len};
ghost use Rattle.overlay_laws.specs.Entries.{cells_of_puts, Source, cell_of, IsRun, IsGathered, got_cell, IsRunFrom, ranges, In, HaveSame, HaveOwnKeys};
ghost use Rattle.serial_spec.specs.Extents.{IsOnce, spans};
ghost use Rattle.overlay_laws.specs.Origins.{Origin, origins, byte_at, AreFound, IsGreatest, IsResolved, IsOnceEach, IsInOrder};
ghost use Rattle.overlay_laws.specs.Walks.{walked, round_end, below, above, IsCover, hull_of, first_at, told_of, extents_walked};
ghost use Rattle.nc_base.specs.declared.plan.Extent.{Extent};
ghost use Rattle.overlay_laws.specs.Parts.{joined, written_parts};

/// Cells that are written one after another leave at each place what the last of them that has the place says, else the
/// old byte; cells that say the same of each place make the same file.
#[tactic(auto, using(serial_spec::proofs::SaidLaws::cells_said, crate::proofs::SaidLaws::cells_long, crate::proofs::SaidLaws::same_said, crate::proofs::SaidLaws::same_file))]
pub fn cells_law()
    ensures byte { (cells : List Cell) (file : List ℕ) (x : ℕ) → at (write_cells file cells) x ≡ byte_or (said_at (said_by cells) x) (at file x) }
    ensures len { (cells : List Cell) (file : List ℕ) → IsWithin cells (length file) → length (write_cells file cells) ≡ length file }
    ensures determined { (f g : List ℕ) → length f ≡ length g → ((x : ℕ) → at f x ≡ at g x) → f ≡ g }
    ensures same { (a b : List Cell) (file : List ℕ) → IsWithin a (length file) → IsWithin b (length file)
        → ((x : ℕ) → said_at (said_by a) x ≡ said_at (said_by b) x) → write_cells file a ≡ write_cells file b }
{}

/// Pairs of which no two say two things of one place say the same in any order.
pub fn order_law()
    ensures one { (ps : List (ℕ × ℕ)) → IsOneValued ps → (x v : ℕ) → Says ps x v → said_at ps x ≡ Some v }
    ensures any { (a b : List (ℕ × ℕ)) → IsOneValued a → ((x v : ℕ) → Says a x v → Says b x v) → ((x v : ℕ) → Says b x v → Says a x v)
        → (x : ℕ) → said_at a x ≡ said_at b x }
{}

/// A buffer that has the file's bytes where no piece lies, overlaid with the pieces and written over its place, writes the pieces.
pub fn window_law()
    ensures { (file buf : List ℕ) (lo : ℕ) (pieces : List Cell) → lo + length buf ≤ length file → IsFrom lo pieces → IsWithin pieces (lo + length buf)
        → ((x : ℕ) → lo ≤ x → x < lo + length buf → said_at (said_by pieces) x ≡ None → at buf (x - lo) ≡ at file x)
        → written file lo (write_cells buf (moved_down lo pieces)) ≡ write_cells file pieces }
{}

/// Windows that have every place of the cells, each written with the parts of the cells in it, make the file of the cells.
pub fn windows_law()
    ensures joined { (lists : List (List Cell)) (file : List ℕ) → fold (λ f cells. write_cells f cells) file lists ≡ write_cells file (flat_map (λ cells. cells) lists) }
    ensures parts { (whole : List (ℕ × ℕ)) (lists : List (List Cell)) → AreParts whole lists → ((x v : ℕ) → said_at whole x ≡ Some v → SomeSays lists x v)
        → (x : ℕ) → said_at (said_by (flat_map (λ cells. cells) lists)) x ≡ said_at whole x }
    ensures windows { (file : List ℕ) (cells : List Cell) (windows : List (ℕ × ℕ)) → IsWithin cells (length file) → IsInOne windows (length file)
        → ((x v : ℕ) → said_at (said_by cells) x ≡ Some v → HasEach windows x)
        → fold (λ f pieces. write_cells f pieces) file (map (λ w. clips w.0 w.1 cells) windows) ≡ write_cells file cells }
    ensures read { (file : List ℕ) (cells : List Cell) (windows : List (ℕ × ℕ)) → IsWithin cells (length file) → IsInOne windows (length file)
        → ((x v : ℕ) → said_at (said_by cells) x ≡ Some v → HasEach windows x)
        → all_read_overlaid file cells windows ≡ write_cells file cells }
{}

/// The puts of a step are cells, which say each byte of each put with its place; so each byte of the file after them is
/// known.
pub fn puts_law()
    ensures cells { (s : Setting) (puts : Puts) (file : List ℕ) → fold (put_post s) file puts ≡ write_cells file (cells_of_puts s.header puts) }
    ensures says { (header : Header) (puts : Puts) → said_by (cells_of_puts header puts) ≡ said_by_puts header puts }
{}

/// Sorted entries of the puts of a step, no two bytes of which differ at one place, say what the puts say.
pub fn entries_law()
    ensures says { (header : Header) (source : Source) (puts : Puts) (ess : List (List Owned)) (list : List Owned)
        → IsGathered header source puts ess → IsPermutation (flat_map (λ os. os) ess) list → IsOneValued (said_by_puts header puts)
        → (x : ℕ) → said_at (said_by (map (λ o. cell_of source o) list)) x ≡ said_at (said_by_puts header puts) x }
    ensures writes { (s : Setting) (source : Source) (puts : Puts) (ess : List (List Owned)) (list : List Owned) (file : List ℕ)
        → IsGathered s.header source puts ess → IsPermutation (flat_map (λ os. os) ess) list → IsOneValued (said_by_puts s.header puts)
        → IsWithin (cells_of_puts s.header puts) (length file) → IsWithin (map (λ o. cell_of source o) list) (length file)
        → fold (put_post s) file puts ≡ write_cells file (map (λ o. cell_of source o) list) }
{}

/// A get is the file's bytes at the bytes of its request, and what its entries collect in any order, each at its place of the blob.
pub fn get_law()
    ensures collected { (s : Setting) (post : Post) (file blob : List ℕ) (os list : List Owned) → IsRunFrom 0 os → ranges os ≡ bytes_of s.header post
        → HaveSame os list → length blob ≡ length (bytes_of s.header post)
        → write_cells blob (map (λ o. got_cell file o) list) ≡ get_post s file post }
    ensures bytes { (s : Setting) (post : Post) (file : List ℕ) → get_post s file post ≡ map (λ i. at file i) (bytes_of s.header post) }
{}

/// Puts of which no two requests share a byte, and none holds a byte twice, say one thing of each place.
pub fn no_pair_law()
    ensures one_valued { (header : Header) (puts : Puts) → shared_pair header puts ≡ None → IsOwnOnce (holdings header puts) → IsOneValued (said_by_puts header puts) }
    ensures own { (header : Header) (puts : Puts) → HaveOwnKeys puts → ((i : ℕ) (p : ℕ × Post) → slice_get puts i ≡ Some p → IsOnce (bytes_of header p.1))
        → IsOwnOnce (holdings header puts) }
{}

/// Where requests overlap, entries that were resolved in rank order write what the puts write one after another.
pub fn resolved_law()
    ensures says { (ordered list result : List Owned) → HaveSame ordered list → IsInOrder ordered → IsOnceEach (origins ordered) → IsResolved list result
        → (x : ℕ) → said_at (origins result) x ≡ said_at (origins ordered) x }
    ensures writes { (s : Setting) (source : Source) (puts : Puts) (ess : List (List Owned)) (list result : List Owned) (file : List ℕ)
        → IsGathered s.header source puts ess → HaveSame (flat_map (λ os. os) ess) list → IsInOrder (flat_map (λ os. os) ess) → IsOnceEach (origins (flat_map (λ os. os) ess))
        → IsResolved list result → AreFound source (flat_map (λ os. os) ess) → AreFound source result
        → IsWithin (cells_of_puts s.header puts) (length file) → IsWithin (map (λ o. cell_of source o) result) (length file)
        → fold (put_post s) file puts ≡ write_cells file (map (λ o. cell_of source o) result) }
{}

/// A file whose parts are written by themselves, each with the cells in it, is the file with the cells.
pub fn parts_law()
    ensures { (parts : List (List ℕ)) (cells : List Cell) → IsWithin cells (length (joined parts)) → written_parts 0 parts cells ≡ write_cells (joined parts) cells }
{}

/// The hulls of the windows of the device calls have every covered byte, so cells that say what the puts say, written hull by
/// hull, make the file of the puts.
pub fn device_windows_law()
    ensures collective { (hints : Hints) (s : Setting) (puts : Puts) (file : List ℕ) (cells : List Cell) → AreHints hints → 1 ≤ length file
        → IsWithin (cells_of_puts s.header puts) (length file) → IsWithin cells (length file)
        → ((x : ℕ) → said_at (said_by cells) x ≡ said_at (said_by_puts s.header puts) x)
        → ((x : ℕ) → In (covered s.header puts) x → x < length file)
        → written_over file cells (collective_windows hints (in_order (covered s.header puts))) ≡ fold (put_post s) file puts }
    ensures sieving { (buffer : ℕ) (s : Setting) (puts : Puts) (file : List ℕ) (cells : List Cell) → 1 ≤ buffer → 1 ≤ length file
        → IsWithin (cells_of_puts s.header puts) (length file) → IsWithin cells (length file)
        → ((x : ℕ) → said_at (said_by cells) x ≡ said_at (said_by_puts s.header puts) x)
        → ((x : ℕ) → In (covered s.header puts) x → x < length file)
        → written_over file cells (sieving_windows buffer (in_order (covered s.header puts))) ≡ fold (put_post s) file puts }
    ensures in_order { (xs : List ℕ) → IsAscending (in_order xs) }
    ensures same_bytes { (xs : List ℕ) → HaveSame xs (in_order xs) }
{}

/// The windows of a domain and those of sieving come one after another, each ending where its round or its buffer ends.
pub fn walk_law()
    ensures windows { (buffer : ℕ) (bytes : List ℕ) → 1 ≤ buffer → IsAscending bytes
        → windows buffer bytes ≡ walked (round_end (first_of bytes) buffer) (length bytes) bytes }
    ensures sieving { (buffer : ℕ) (bytes : List ℕ) → sieving_windows buffer bytes ≡ walked (λ x. x + buffer) (length bytes) bytes }
{}

/// A cursor that cuts the extents of a cover goes over the hulls of the windows of its bytes, and knows which have a hole.
pub fn cursor_law()
    ensures below { (stop : ℕ) (cover : List Extent) → IsCover cover → filter (λ y. nat_lt y stop) (spans cover) ≡ spans (below stop cover) }
    ensures above { (stop : ℕ) (cover : List Extent) → IsCover cover → filter (λ y. nat_le stop y) (spans cover) ≡ spans (above stop cover) }
    ensures in_order { (cover : List Extent) (bytes : List ℕ) → IsCover cover → HaveSame (spans cover) bytes → spans cover ≡ in_order bytes }
    ensures windows { (buffer : ℕ) (cover : List Extent) → 1 ≤ buffer → IsCover cover
        → map told_of (windows buffer (spans cover)) ≡ extents_walked (round_end (first_at cover) buffer) (length (spans cover)) cover }
    ensures sieving { (buffer : ℕ) (cover : List Extent) → 1 ≤ buffer → IsCover cover
        → map told_of (sieving_windows buffer (spans cover)) ≡ extents_walked (λ x. x + buffer) (length (spans cover)) cover }
{}

/// The pair of entries, in any order, is the pair of the puts that they were gathered from.
pub fn entries_pair_law()
    ensures { (header : Header) (source : Source) (puts : Puts) (ess : List (List Owned)) (list : List Owned)
        → IsGathered header source puts ess → HaveSame (flat_map (λ os. os) ess) list
        → shared_pair_of (holdings_of_entries list) ≡ shared_pair header puts }
{}

/// A step's file is long enough where every covered byte lies in it; and a list of places that lie apart has no byte twice.
pub fn room_law()
    ensures room { (s : Setting) (source : Source) (puts : Puts) (ess : List (List Owned)) (list : List Owned) (n : ℕ) → 1 ≤ n
        → IsGathered s.header source puts ess → HaveSame (flat_map (λ os. os) ess) list → ((o : Owned) → In list o → 1 ≤ o.extent.len)
        → ((x : ℕ) → In (covered s.header puts) x → x < n) → HasRoom s source puts list n }
    ensures once { (size : ℕ) (ps : List ℕ) (k l x : ℕ) → LieApart size ps
        → slice_get (flat_map (λ p. range_with_len p size) ps) k ≡ Some x → slice_get (flat_map (λ p. range_with_len p size) ps) l ≡ Some x → k ≡ l }
{}

/// Elements of a region stand once each, so those of a variable of a sound header lie apart where each is an element of it.
pub fn region_law()
    ensures once { (g : Region) (i j : ℕ) (a : List ℕ) → HaveStrides g.count g.start g.stride
        → slice_get (elements g) i ≡ Some a → slice_get (elements g) j ≡ Some a → i ≡ j }
    ensures apart { (header : Header) (k : ℕ) (v : Var) (g : Region) → is_sound header ≡ true → slice_get header.vars k ≡ Some v
        → HaveStrides g.count g.start g.stride → ((i : ℕ) (a : List ℕ) → slice_get (elements g) i ≡ Some a → IsElement header v a)
        → LieApart (size_of v.kind) (places header v g) }
{}

/// A domain of a cover's bytes is the cover between two places.
pub fn domain_law()
    ensures { (low s a : ℕ) (cover : List Extent) → 1 ≤ s → IsCover cover → ((x : ℕ) → In (spans cover) x → low ≤ x)
        → filter (λ x. (x - low) / s == a) (spans cover) ≡ spans (below (low + (a + 1) * s) (above (low + a * s) cover)) }
{}

/// The step of the model is the sorted entries, laid over the hulls of the windows of the device calls.
pub fn step_law()
    ensures collective { (hints : Hints) (s : Setting) (source : Source) (puts : Puts) (ess : List (List Owned)) (list : List Owned) (file : List ℕ)
        → AreHints hints → IsGathered s.header source puts ess → HaveSame (flat_map (λ os. os) ess) list
        → shared_pair_of (holdings_of_entries list) ≡ None → IsOwnOnce (holdings s.header puts)
        → HasRoom s source puts list (length (longer file (end_for s (needed_by s.header puts))))
        → written_over (longer file (end_for s (needed_by s.header puts))) (map (λ o. cell_of source o) list) (collective_windows hints (in_order (covered s.header puts)))
        ≡ after_puts s puts None file }
    ensures solo { (buffer : ℕ) (s : Setting) (source : Source) (puts : Puts) (ess : List (List Owned)) (list : List Owned) (file : List ℕ)
        → 1 ≤ buffer → IsGathered s.header source puts ess → HaveSame (flat_map (λ os. os) ess) list
        → shared_pair_of (holdings_of_entries list) ≡ None → IsOwnOnce (holdings s.header puts)
        → HasRoom s source puts list (length (longer file (end_for s (needed_by s.header puts))))
        → written_over (longer file (end_for s (needed_by s.header puts))) (map (λ o. cell_of source o) list) (sieving_windows buffer (in_order (covered s.header puts)))
        ≡ after_puts s puts None file }
    ensures serial { (hints : Hints) (s : Setting) (source : Source) (puts : Puts) (ess : List (List Owned)) (list result : List Owned) (file : List ℕ)
        → AreHints hints → IsGathered s.header source puts ess → HaveSame (flat_map (λ os. os) ess) list → IsInOrder (flat_map (λ os. os) ess)
        → IsOnceEach (origins (flat_map (λ os. os) ess)) → IsResolved list result → AreFound source (flat_map (λ os. os) ess) → AreFound source result
        → HasRoom s source puts result (length (longer file (end_for s (needed_by s.header puts))))
        → written_over (longer file (end_for s (needed_by s.header puts))) (map (λ o. cell_of source o) result) (collective_windows hints (in_order (covered s.header puts)))
        ≡ after_puts s puts None file }
{}
