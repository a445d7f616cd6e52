//! What a call of form varn comes to by its parts.

ghost use Rattle.std.specs.Prelude.{◌≡◌, ℕ, ◌≤◌, List, [], ◌∷◌, flat_map, fold, length, map, false, true, None, Some};
ghost use Rattle.nc_base.specs.declared.answer.Code.TheVariants.{Ok};
ghost use Rattle.nc_base.specs.declared.header.Header.{Header};
ghost use Rattle.nc_base.specs.declared.request.Call.TheVariants.{Get, Put};
ghost use Rattle.nc_base.specs.declared.request.Form.TheVariants.{Varn};
ghost use Rattle.nc_base.specs.declared.request.Given.{Given};
ghost use Rattle.nc_base.specs.declared.request.Values.{Values};
ghost use Rattle.nc_base.specs.declared.script.Script.{Script};
ghost use Rattle.nc_base.specs.declared.step.Mark.{Mark};
ghost use Rattle.serial_spec.specs.FileStep.{Counted, Setting, after_puts, end_for};
ghost use Rattle.serial_spec.specs.Looks.{look};
ghost use Rattle.serial_spec.specs.RankMachine.{code_of_look, posts_of};
ghost use Rattle.serial_spec.specs.SerialEnd.{Going, setting_of, start, state_after};
ghost use Rattle.serial_spec.specs.SharedByte.{Puts};
ghost use Rattle.whole_run_laws.specs.PartCalls.{joined, last_values, makes, on_part, own_values, put_parts, request_values};

/// A call of form varn that is not refused asks, as one request, for all that calls of form vara on its parts ask for, one after
/// another. The part that comes first takes the first of the values.
pub fn parts_law()
    ensures puts { (header : Header) (known id : ℕ) (name : List ℕ) (given : Given) (values : Values) → given.form ≡ Varn
        → code_of_look (look header known id name given (Some values)) ≡ Ok
        → posts_of (look header known id name given (Some values))
        ≡ flat_map (λ part. posts_of (look header known id name (on_part part.0) (Some part.1))) (own_values values 0 given.parts) }
    ensures gets { (header : Header) (known id : ℕ) (name : List ℕ) (given : Given) → given.form ≡ Varn
        → code_of_look (look header known id name given None) ≡ Ok
        → posts_of (look header known id name given None) ≡ flat_map (λ part. posts_of (look header known id name (on_part part) None)) given.parts }
{}

/// The puts of a step without a pair leave what they leave in steps of their own, one after another, in a file that is at least as
/// long as without records; and the file of a run always is.
pub fn in_turn_law()
    ensures one_by_one { (s : Setting) (puts : Puts) (file : List ℕ) → end_for s 0 ≤ length file
        → after_puts s puts None file ≡ fold (λ left put. after_puts s (put ∷ []) None left) file puts }
    ensures long_enough { (script : Script) (header : Header) (file : List ℕ) (order : List Mark)
        → end_for (setting_of script header) 0 ≤ length (state_after script header (start script header file) order).0.file }
{}

/// A rank's independent put of many regions leaves what its puts of the regions leave, one after another.
pub fn varn_put_law()
    ensures { (s : Setting) (number : ℕ) (state : Counted × Going) (name : List ℕ) (given : Given) (values : Values)
        → state.1.rank.independent ≡ true → end_for s 0 ≤ length state.0.file → given.form ≡ Varn
        → code_of_look (look s.header state.1.rank.known 0 name given (Some values)) ≡ Ok
        → (makes s number state (Put false name given values)).0.file ≡ (fold (makes s number) state (put_parts name values given.parts)).0.file }
{}

/// A get of many regions gives the values of gets of the regions, joined: as a request, blocking or not, and in the answer to an
/// independent get.
pub fn varn_get_law()
    ensures request { (s : Setting) (file : List ℕ) (known id : ℕ) (name : List ℕ) (given : Given) → given.form ≡ Varn
        → code_of_look (look s.header known id name given None) ≡ Ok
        → request_values s file id (posts_of (look s.header known id name given None))
        ≡ joined (map (λ part. request_values s file id (posts_of (look s.header known id name (on_part part) None))) given.parts) }
    ensures answer { (s : Setting) (number : ℕ) (state : Counted × Going) (name : List ℕ) (given : Given)
        → state.1.rank.independent ≡ true → end_for s 0 ≤ length state.0.file → given.form ≡ Varn
        → code_of_look (look s.header state.1.rank.known 0 name given None) ≡ Ok
        → last_values (makes s number state (Get false name given)).1
        ≡ joined (map (λ part. last_values (makes s number state (Get false name (on_part part))).1) given.parts) }
{}
