//! Laws of a run whose ranks go ahead of the serial run's. Each law is the contract of a function.
#![tactic(auto)]

ghost use Rattle.std.specs.Prelude.{◌≡◌, ℕ, ◌+◌, ◌*◌, ◌^◌, ◌<◌, ◌≤◌, ◌≢◌, List, [], ◌∷◌, ◌++◌, map, fold, set, length, true, false, max, Option, Some, None, IfSome, is_some, slice_get, nat_lt};
ghost use Rattle.std.specs.List.{list_all};
ghost use Rattle.nc_base.specs.declared.answer.Answer.{Answer};
ghost use Rattle.nc_base.specs.declared.header.Header.{Header};
ghost use Rattle.nc_base.specs.declared.request.Call.{Call};
ghost use Rattle.nc_base.specs.declared.script.Hints.{Hints};
ghost use Rattle.nc_base.specs.declared.script.Script.{Script};
ghost use Rattle.nc_base.specs.declared.step.Mark.{Mark};
ghost use Rattle.nc_base.specs.declared.step.Mark.TheVariants as mark;
ghost use Rattle.nc_base.specs.declared.step.Offer.{Offer};
ghost use Rattle.nc_base.specs.declared.step.OfferKind.TheVariants as offer;
ghost use Rattle.nc_base.specs.declared.step.Reply.{Reply};
ghost use Rattle.nc_base.specs.declared.step.Want.TheVariants as want;
ghost use Rattle.serial_spec.specs.DeviceCalls.{mark_calls, meeting_calls, solo_calls, store_records, calls_from, run_calls};
ghost use Rattle.serial_spec.specs.FileStep.{Setting, Counted, meeting, solo};
ghost use Rattle.serial_spec.specs.History.{IsLegal, is_of_rank_below};
ghost use Rattle.serial_spec.specs.Lawful.{is_lawful, is_lawful_call, most_calls, most_parts};
ghost use Rattle.serial_spec.specs.RankMachine as machine;
ghost use Rattle.serial_spec.specs.RankMachine.{step, hear};
ghost use Rattle.serial_spec.specs.SerialEnd.{Going, first_going, advance, hears, after_meeting, after_solo, after_mark, state_after, setting_of, closed, serial_from, close_by};
ghost use Rattle.run_laws.specs.Requests.{IsFresh, IsShare, posts_held};
ghost use Rattle.run_laws.specs.Ahead.{answered, asking, HasCome, AreAt, AreEnded, all_hear, is_solo_of, own_step, own_calls, calls_so_far};
ghost use Rattle.run_laws.specs.Ways.{meetings, IsOnWay};
ghost use Rattle.run_laws.specs.Arrivals.{step_to, step_calls, calls_over, ended_from, all_calls_over, first_stand};

/// A rank that answers its calls alone comes to the same next offer, or the same end, as the rank of the serial run.
pub fn standing_law()
    ensures begins { (header : Header) (g : Going) → HasCome header g g }
    ensures answers { (header : Header) (g s : Going) (next : machine.Rank) (a : Answer) (c : Call) (calls : List Call)
        → HasCome header g s → s.calls ≡ c ∷ calls → (next, want.Answered a) ≡ step header s.rank c → HasCome header g (answered s next a calls) }
    ensures meets { (header : Header) (g s : Going) (next : machine.Rank) (o : Offer) (c : Call) (calls : List Call)
        → HasCome header g s → s.calls ≡ c ∷ calls → (next, want.Meet o) ≡ step header s.rank c → advance header g ≡ (asking s next calls, Some o) }
    ensures solo { (header : Header) (g s : Going) (next : machine.Rank) (o : Offer) (c : Call) (calls : List Call)
        → HasCome header g s → s.calls ≡ c ∷ calls → (next, want.Solo o) ≡ step header s.rank c → advance header g ≡ (asking s next calls, Some o) }
    ensures ends { (header : Header) (g s : Going) → HasCome header g s → s.calls ≡ [] → advance header g ≡ (s, None) }
    ensures hears { (header : Header) (s : Going) (reply : Reply) (heard : machine.Rank) (a : Answer)
        → (heard, a) ≡ hear header s.rank reply → hears header s reply ≡ answered s heard a s.calls }
{}

/// What a rank offers and keeps at a step, and what it knows when it hears.
pub fn offer_law()
    ensures alone { (header : Header) (rank next : machine.Rank) (c : Call) (a : Answer) → (next, want.Answered a) ≡ step header rank c
        → (next.known ≡ rank.known) × (next.open ≡ rank.open) }
    ensures meets { (header : Header) (rank next : machine.Rank) (c : Call) (o : Offer) → (next, want.Meet o) ≡ step header rank c
        → (next.known ≡ rank.known) × ((o.known ≡ rank.known) × ((is_some next.open ≡ true) × IfSome next.open (λ w. w.gets ≡ o.batch.gets))) }
    ensures solo { (header : Header) (rank next : machine.Rank) (c : Call) (o : Offer) → (next, want.Solo o) ≡ step header rank c
        → (o.kind ≡ offer.Solo) × ((next.known ≡ rank.known) × ((o.known ≡ rank.known) × ((is_some next.open ≡ true) × IfSome next.open (λ w. w.gets ≡ o.batch.gets)))) }
    ensures hears { (header : Header) (rank heard : machine.Rank) (reply : Reply) (a : Answer) → is_some rank.open ≡ true → (heard, a) ≡ hear header rank reply
        → (heard.known ≡ max rank.known reply.records) × ((heard.open ≡ None) × (heard.posted ≡ rank.posted)) }
{}

/// A meeting and a solo step of the serial run are those of the ranks that stand at their offers.
pub fn step_law()
    ensures meeting { (s : Setting) (c : Counted) (goings ss : List Going) (offers : List Offer) → AreAt s.header goings ss offers
        → after_meeting s (c, goings) ≡ ((meeting s offers c).0, all_hear s.header ss (meeting s offers c).1) }
    ensures meeting_calls { (hints : Hints) (s : Setting) (c : Counted) (goings ss : List Going) (offers : List Offer) (k : ℕ) → AreAt s.header goings ss offers
        → mark_calls hints s (c, goings) (mark.Meet k) ≡ meeting_calls hints s offers c }
    ensures solo { (s : Setting) (r : ℕ) (c : Counted) (goings : List Going) (g t : Going) (o : Offer) → slice_get goings r ≡ Some g → advance s.header g ≡ (t, Some o)
        → after_solo s r c goings ≡ ((solo s r o c).0, set goings r (hears s.header t (solo s r o c).1)) }
    ensures solo_calls { (hints : Hints) (s : Setting) (r n : ℕ) (c : Counted) (goings : List Going) (g t : Going) (o : Offer)
        → slice_get goings r ≡ Some g → advance s.header g ≡ (t, Some o) → mark_calls hints s (c, goings) (mark.Solo r n) ≡ solo_calls hints s r o c }
    ensures own_step { (s : Setting) (r : ℕ) (c : Counted) (g t : Going) (o : Offer) (m : Mark) → advance s.header g ≡ (t, Some o)
        → own_step s r (c, g) m ≡ ((solo s r o c).0, hears s.header t (solo s r o c).1) }
    ensures closed { (s : Setting) (c : Counted) (goings ss : List Going) → AreEnded s.header goings ss → closed s (c, goings) ≡ close_by s c ss }
{}

/// The state and the device calls of a longer order.
pub fn order_law()
    ensures state { (script : Script) (header : Header) (file : List ℕ) (order : List Mark) (m : Mark)
        → state_after script header file (order ++ m ∷ []) ≡ after_mark (setting_of script header) (state_after script header file order) m }
    ensures states { (script : Script) (header : Header) (file : List ℕ) (order more : List Mark)
        → state_after script header file (order ++ more) ≡ fold (after_mark (setting_of script header)) (state_after script header file order) more }
    ensures calls { (hints : Hints) (s : Setting) (state : Counted × List Going) (order more : List Mark)
        → calls_so_far hints s state (order ++ more) ≡ calls_so_far hints s state order ++ calls_so_far hints s (fold (after_mark s) state order) more }
    ensures one_call { (hints : Hints) (s : Setting) (state : Counted × List Going) (order : List Mark) (m : Mark)
        → calls_so_far hints s state (order ++ m ∷ []) ≡ calls_so_far hints s state order ++ mark_calls hints s (fold (after_mark s) state order) m }
    ensures close { (hints : Hints) (s : Setting) (state : Counted × List Going) (order : List Mark)
        → calls_from hints s state order ≡ calls_so_far hints s state order
        ++ store_records s (nat_lt (fold (after_mark s) state order).0.records (closed s (fold (after_mark s) state order)).records) }
    ensures own { (s : Setting) (r : ℕ) (c : Counted) (goings : List Going) (g : Going) (more : List Mark) → slice_get goings r ≡ Some g → list_all (is_solo_of r) more ≡ true
        → fold (after_mark s) (c, goings) more ≡ ((fold (own_step s r) (c, g) more).0, set goings r (fold (own_step s r) (c, g) more).1) }
    ensures own_calls { (hints : Hints) (s : Setting) (r : ℕ) (c : Counted) (goings : List Going) (g : Going) (more : List Mark) → slice_get goings r ≡ Some g
        → list_all (is_solo_of r) more ≡ true → calls_so_far hints s (c, goings) more ≡ own_calls hints s r (c, g) more }
{}

/// A run may be told by ranks that have gone up to their next offers, which each step finds there.
pub fn arrival_law()
    ensures step { (s : Setting) (state : Counted × List Going) (m : Mark)
        → step_to s (state.0, map (advance s.header) state.1) m ≡ ((after_mark s state m).0, map (advance s.header) (after_mark s state m).1) }
    ensures calls { (hints : Hints) (s : Setting) (state : Counted × List Going) (order : List Mark)
        → calls_over hints s (state.0, map (advance s.header) state.1) order ≡ calls_so_far hints s state order }
    ensures serial { (script : Script) (header : Header) (file : List ℕ) (order : List Mark)
        → serial_from script header file order ≡ ended_from (setting_of script header) (first_stand header file script.calls) order }
    ensures run_calls { (script : Script) (header : Header) (file : List ℕ) (order : List Mark)
        → run_calls script header file order ≡ all_calls_over script.hints (setting_of script header) (first_stand header file script.calls) order }
{}

/// How a rank goes on its way: at its beginning, at its own calls, and while others do their solo steps.
pub fn way_law()
    ensures begins { (script : Script) (header : Header) (r : ℕ) (own : List Call) → is_lawful script ≡ true → slice_get script.calls r ≡ Some own
        → IsOnWay script [] r (first_going header own) None }
    ensures answers { (script : Script) (order : List Mark) (r : ℕ) (header : Header) (s : Going) (next : machine.Rank) (a : Answer) (c : Call) (calls : List Call)
        → IsOnWay script order r s None → s.calls ≡ c ∷ calls → (next, want.Answered a) ≡ step header s.rank c → posts_held next ≤ posts_held s.rank + most_parts
        → IsOnWay script order r (answered s next a calls) None }
    ensures meets { (script : Script) (order : List Mark) (r : ℕ) (header : Header) (s : Going) (next : machine.Rank) (o : Offer) (c : Call) (calls : List Call)
        → IsOnWay script order r s None → s.calls ≡ c ∷ calls → (next, want.Meet o) ≡ step header s.rank c → posts_held next ≤ posts_held s.rank + most_parts
        → IsOnWay script order r (asking s next calls) (Some o) }
    ensures solo { (script : Script) (order : List Mark) (r : ℕ) (header : Header) (s : Going) (next heard : machine.Rank) (o : Offer) (reply : Reply) (a : Answer) (c : Call)
        (calls : List Call) → IsOnWay script order r s None → s.calls ≡ c ∷ calls → (next, want.Solo o) ≡ step header s.rank c
        → posts_held next ≤ posts_held s.rank + most_parts → (heard, a) ≡ hear header next reply
        → IsOnWay script (order ++ mark.Solo r (length s.answers) ∷ []) r (answered s heard a calls) None }
    ensures hears { (script : Script) (order : List Mark) (r : ℕ) (header : Header) (s : Going) (heard : machine.Rank) (o : Offer) (reply : Reply) (a : Answer)
        → IsOnWay script order r s (Some o) → (heard, a) ≡ hear header s.rank reply
        → IsOnWay script (order ++ mark.Meet (meetings order) ∷ []) r (answered s heard a s.calls) None }
    ensures beside { (script : Script) (order : List Mark) (r q n : ℕ) (s : Going) (held : Option Offer) → q ≢ r → IsOnWay script order r s held
        → IsOnWay script (order ++ mark.Solo q n ∷ []) r s held }
    ensures others { (script : Script) (order more : List Mark) (r q : ℕ) (s : Going) (held : Option Offer) → q ≢ r → list_all (is_solo_of q) more ≡ true
        → IsOnWay script order r s held → IsOnWay script (order ++ more) r s held }
{}

/// What a rank on its way has when it makes its next call.
pub fn call_law()
    ensures idle { (script : Script) (order : List Mark) (r : ℕ) (s : Going) → IsOnWay script order r s None → s.rank.open ≡ None }
    ensures fresh { (script : Script) (order : List Mark) (r : ℕ) (s : Going) (c : Call) (calls : List Call) → IsOnWay script order r s None → s.calls ≡ c ∷ calls
        → IsFresh s.rank c }
    ensures share { (script : Script) (order : List Mark) (r : ℕ) (s : Going) (c : Call) (calls : List Call) → is_lawful script ≡ true → r < script.ranks
        → IsOnWay script order r s None → s.calls ≡ c ∷ calls → IsShare c }
    ensures lawful { (script : Script) (order : List Mark) (r : ℕ) (s : Going) (c : Call) (calls : List Call) → IsOnWay script order r s None → s.calls ≡ c ∷ calls
        → is_lawful_call script.ranks r c ≡ true }
    ensures posts { (script : Script) (order : List Mark) (r : ℕ) (s : Going) (c : Call) (calls : List Call) → IsOnWay script order r s None → s.calls ≡ c ∷ calls
        → posts_held s.rank + most_parts ≤ 2 ^ 30 }
    ensures number { (script : Script) (order : List Mark) (r : ℕ) (s : Going) (c : Call) (calls : List Call) → IsOnWay script order r s None → s.calls ≡ c ∷ calls
        → length s.answers < most_calls }
    ensures waits { (script : Script) (order : List Mark) (r : ℕ) (s : Going) (o : Offer) → IsOnWay script order r s (Some o)
        → (is_some s.rank.open ≡ true) × IfSome s.rank.open (λ w. w.gets ≡ o.batch.gets) }
{}

/// The ranks of a lawful script meet together, in meetings of one kind, and end together; then the order is one of the script's
/// histories.
pub fn together_law()
    ensures all { (script : Script) (order : List Mark) (r q : ℕ) (s t : Going) (o : Offer) → IsOnWay script order r s (Some o) → IsOnWay script order q t None
        → t.calls ≢ [] }
    ensures one_kind { (script : Script) (order : List Mark) (r q : ℕ) (s t : Going) (o p : Offer) → IsOnWay script order r s (Some o) → IsOnWay script order q t (Some p)
        → p.kind ≡ o.kind }
    ensures number { (script : Script) (order : List Mark) (r : ℕ) (s : Going) (o : Offer) → is_lawful script ≡ true → IsOnWay script order r s (Some o)
        → meetings order < most_calls }
    ensures solo_known { (ranks r n : ℕ) (order : List Mark) → r < ranks → list_all (is_of_rank_below ranks) order ≡ true
        → list_all (is_of_rank_below ranks) (order ++ mark.Solo r n ∷ []) ≡ true }
    ensures meeting_known { (ranks k : ℕ) (order : List Mark) → list_all (is_of_rank_below ranks) order ≡ true
        → list_all (is_of_rank_below ranks) (order ++ mark.Meet k ∷ []) ≡ true }
    ensures legal { (script : Script) (order : List Mark) (ss : List Going) → length ss ≡ script.ranks → list_all (is_of_rank_below script.ranks) order ≡ true
        → ((r : ℕ) (s : Going) → slice_get ss r ≡ Some s → IsOnWay script order r s None × (s.calls ≡ [])) → IsLegal script order }
{}
