//! What comes of puts that share a byte.

ghost use Rattle.std.specs.Prelude.{◌≡◌, ℕ, List, [], ◌∷◌, ◌++◌, length, true, None, Some, slice_get};
ghost use Rattle.nc_base.specs.declared.answer.Answer.{Answer};
ghost use Rattle.nc_base.specs.declared.answer.Pair.{Pair};
ghost use Rattle.nc_base.specs.declared.header.Header.{Header};
ghost use Rattle.nc_base.specs.declared.request.Call.{Call};
ghost use Rattle.nc_base.specs.declared.script.OverlapRule.TheVariants.{Refuse};
ghost use Rattle.nc_base.specs.declared.script.Script.{Script};
ghost use Rattle.nc_base.specs.declared.step.Mark.{Mark};
ghost use Rattle.nc_base.specs.declared.step.Mark.TheVariants.{Meet, Solo};
ghost use Rattle.nc_base.specs.declared.step.Offer.{Offer};
ghost use Rattle.nc_base.specs.declared.step.Reply.{Reply};
ghost use Rattle.serial_spec.specs.FileStep.{Counted, Setting, meeting, puts_of, solo, told};
ghost use Rattle.serial_spec.specs.History.{IsLegal};
ghost use Rattle.serial_spec.specs.Lawful.{is_lawful};
ghost use Rattle.serial_spec.specs.Lists.{In};
ghost use Rattle.serial_spec.specs.SerialEnd.{serial_from, state_after};
ghost use Rattle.serial_spec.specs.SharedByte.{IsSharedPair, IsUnshared, Puts, holdings};
ghost use Rattle.whole_run_laws.specs.Completed.{puts_met};
ghost use Rattle.whole_run_laws.specs.Told.{IsToldAt, meeting_call, told_at};

/// In one step every rank is told the same: the least byte that two of its puts' requests hold, with the two least of them, if
/// the rule is to refuse such puts, and else no pair.
pub fn telling_law()
    ensures one_each { (s : Setting) (offers : List Offer) (c : Counted) → length (meeting s offers c).1 ≡ length offers }
    ensures same_pair { (s : Setting) (offers : List Offer) (c : Counted) (y : Reply) → In (meeting s offers c).1 y → y.pair ≡ told s (puts_met offers) }
    ensures own_pair { (s : Setting) (r : ℕ) (o : Offer) (c : Counted) → (solo s r o c).1.pair ≡ told s (puts_of (r, o)) }
    ensures least { (s : Setting) (puts : Puts) (p : Pair) → told s puts ≡ Some p → IsSharedPair (holdings s.header puts) p }
    ensures no_shared_byte { (s : Setting) (puts : Puts) → s.overlap ≡ Refuse → told s puts ≡ None → (x : ℕ) → IsUnshared (holdings s.header puts) x }
    ensures refused { (s : Setting) (puts : Puts) (p : Pair) → told s puts ≡ Some p → s.overlap ≡ Refuse }
{}

/// A step whose ranks are told a pair leaves file and record count as they were; and at the end the answer of each rank to the call
/// by which it took part in a step has what that step tells.
pub fn overlap_law()
    ensures nothing_changes { (script : Script) (header : Header) (file : List ℕ) (before later : List Mark) (m : Mark) (p : Pair)
        → is_lawful script ≡ true → IsLegal script (before ++ m ∷ later) → told_at script header file before m ≡ Some p
        → (state_after script header file (before ++ m ∷ [])).0 ≡ (state_after script header file before).0 }
    ensures all_told { (script : Script) (header : Header) (file : List ℕ) (before later : List Mark) (k r : ℕ) (own : List Call) (answers : List Answer)
        → is_lawful script ≡ true → IsLegal script (before ++ Meet k ∷ later) → slice_get script.calls r ≡ Some own
        → slice_get (serial_from script header file (before ++ Meet k ∷ later)).answers r ≡ Some answers
        → IsToldAt answers (meeting_call k own) (told_at script header file before (Meet k)) }
    ensures one_told { (script : Script) (header : Header) (file : List ℕ) (before later : List Mark) (r c : ℕ) (answers : List Answer)
        → is_lawful script ≡ true → IsLegal script (before ++ Solo r c ∷ later)
        → slice_get (serial_from script header file (before ++ Solo r c ∷ later)).answers r ≡ Some answers
        → IsToldAt answers c (told_at script header file before (Solo r c)) }
{}
