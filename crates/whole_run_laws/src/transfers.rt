//! How much a run transfers at once.

ghost use Rattle.std.specs.Prelude.{◌≡◌, ℕ, ◌≤◌, ◌⊎◌, List, [], max, true};
ghost use Rattle.nc_base.specs.declared.header.Header.{Header};
ghost use Rattle.nc_base.specs.declared.script.Hints.{Hints};
ghost use Rattle.nc_base.specs.declared.script.Script.{Script};
ghost use Rattle.nc_base.specs.declared.step.DiskCall.{DiskCall};
ghost use Rattle.nc_base.specs.declared.step.Mark.{Mark};
ghost use Rattle.nc_base.specs.declared.step.Offer.{Offer};
ghost use Rattle.serial_spec.specs.DeviceCalls.{collective_windows, hull_len, in_order, meeting_calls, run_calls, sieving_windows, solo_calls};
ghost use Rattle.serial_spec.specs.FileStep.{Counted, Setting};
ghost use Rattle.serial_spec.specs.Lawful.{is_lawful};
ghost use Rattle.serial_spec.specs.Lists.{In};
ghost use Rattle.whole_run_laws.specs.Transfers.{is_count_store, longest, transferred};

/// A window's hull, from its first byte to its last, is never longer than the window's buffer.
pub fn hull_law()
    ensures collective { (hints : Hints) (bytes window : List ℕ) → 1 ≤ hints.cb_buffer → In (collective_windows hints (in_order bytes)) window
        → hull_len window ≤ hints.cb_buffer }
    ensures sieving { (buffer : ℕ) (bytes window : List ℕ) → 1 ≤ buffer → In (sieving_windows buffer bytes) window → hull_len window ≤ buffer }
{}

/// No call of a step reads or writes more than the step's buffer, but for the store of the record count.
pub fn transfer_law()
    ensures meeting { (hints : Hints) (s : Setting) (offers : List Offer) (c : Counted) (call : DiskCall) → 1 ≤ hints.cb_buffer
        → In (meeting_calls hints s offers c) call → (transferred call ≤ hints.cb_buffer) ⊎ (is_count_store s.header call ≡ true) }
    ensures solo_puts { (hints : Hints) (s : Setting) (r : ℕ) (o : Offer) (c : Counted) (call : DiskCall) → 1 ≤ hints.wr_buffer → o.batch.gets ≡ []
        → In (solo_calls hints s r o c) call → transferred call ≤ hints.wr_buffer }
    ensures solo_gets { (hints : Hints) (s : Setting) (r : ℕ) (o : Offer) (c : Counted) (call : DiskCall) → 1 ≤ hints.rd_buffer → o.batch.puts ≡ []
        → In (solo_calls hints s r o c) call → transferred call ≤ hints.rd_buffer }
    ensures solo { (hints : Hints) (s : Setting) (r : ℕ) (o : Offer) (c : Counted) (call : DiskCall) → 1 ≤ hints.wr_buffer → 1 ≤ hints.rd_buffer
        → In (solo_calls hints s r o c) call → transferred call ≤ max hints.wr_buffer hints.rd_buffer }
    ensures run { (script : Script) (header : Header) (file : List ℕ) (order : List Mark) (call : DiskCall) → is_lawful script ≡ true
        → In (run_calls script header file order) call → (transferred call ≤ longest script.hints) ⊎ (is_count_store header call ≡ true) }
{}
