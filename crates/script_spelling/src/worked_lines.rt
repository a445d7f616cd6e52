//! Lines and what they spell, and lines that spell nothing of the kind.

ghost use Rattle.std.specs.Prelude.{◌≡◌, ℕ, List, [], ◌∷◌, ◌++◌, length, map, replicate, true, false, None, Some, codes, pos, neg_ℤ};
ghost use Rattle.std.specs.Str.Lossy.{utf8_valid_len};
ghost use Rattle.nc_base.specs.declared.header.NcType.TheVariants.{Char, Short, UByte};
ghost use Rattle.nc_base.specs.declared.script.Script.{Script};
ghost use Rattle.nc_base.specs.declared.request.Values.TheVariants.{Numbers, Bits};
ghost use Rattle.nc_base.specs.declared.request.Form.TheVariants as form;
ghost use Rattle.nc_base.specs.declared.request.PostKind.TheVariants.{Iget};
ghost use Rattle.nc_base.specs.declared.request.Choice.TheVariants.{Every, Listed};
ghost use Rattle.nc_base.specs.declared.request.Call.TheVariants as call;
ghost use Rattle.script_spec.specs.ScriptCalls.{given_of};
ghost use Rattle.script_spec.specs.ScriptWords.{words};
ghost use Rattle.script_spec.specs.Texts.{text_line};
ghost use Rattle.script_spec.specs.TextExamples.{halves_read, script_halves};
ghost use Rattle.script_spelling.specs.SpelledValues.{SpellsValues};
ghost use Rattle.script_spelling.specs.SpelledCalls.{SpellsCallLine};
ghost use Rattle.script_spelling.specs.Statements.{Says, Stand, RanksAre, HintIs, IsFilled, DimIs, VarIs, AttIs};
ghost use Rattle.script_spelling.specs.Spelling.{Spells, lines_of, said_lines};

/// Lines between the head and `data`.
pub fn worked_statements()
    ensures ranks { Says 1 (words (codes "ranks 08")) (RanksAre 8) }
    ensures hint { Says 1 (words (codes "hint threads off")) (HintIs 5 0) }
    ensures fill { Says 1 (words (codes "  fill ")) IsFilled }
    ensures dim { Says 1 (words (codes "dim x 4")) (DimIs (record { name = codes "x"; len = 4 })) }
    ensures unlimited { Says 1 (words (codes "dim t unlimited")) (DimIs (record { name = codes "t"; len = 0 })) }
    ensures var { Says 1 (words (codes "var short v [t,x]")) (VarIs (record { kind = Short; name = codes "v"; dims = codes "t" ∷ codes "x" ∷ [] })) }
    ensures att { Says 1 (words (codes "att : title char \"a b\"")) (AttIs None (record { name = codes "title"; kind = Char; count = 3; bytes = codes "a b" })) }
    ensures of_version_5 { Says 5 (words (codes "var ubyte b []")) (VarIs (record { kind = UByte; name = codes "b"; dims = [] })) }
    ensures not_of_version_1 { Says 1 (words (codes "var ubyte b []")) (VarIs (record { kind = UByte; name = codes "b"; dims = [] })) → ⊥ }
{}

/// Statements behind one another: a name is defined before it is used, and once.
pub fn worked_order()
    ensures before { Stand false [] [] [] (DimIs (record { name = codes "x"; len = 4 }) ∷ VarIs (record { kind = Short; name = codes "v"; dims = codes "x" ∷ [] }) ∷ []) }
    ensures behind { Stand false [] [] [] (VarIs (record { kind = Short; name = codes "v"; dims = codes "x" ∷ [] }) ∷ DimIs (record { name = codes "x"; len = 4 }) ∷ []) → ⊥ }
    ensures opened { Stand true [] [] [] (VarIs (record { kind = Short; name = codes "v"; dims = codes "x" ∷ [] }) ∷ []) }
    ensures twice { Stand true [] [] [] (DimIs (record { name = codes "x"; len = 4 }) ∷ DimIs (record { name = codes "x"; len = 2 }) ∷ []) → ⊥ }
{}

/// Lines of calls, and values of each kind.
pub fn worked_calls()
    ensures put { SpellsCallLine (words (codes "0 put_vara_all v [1] [2] 5 -1")) (0, call.Put true (codes "v") (given_of form.Vara (1 ∷ []) (2 ∷ []) [] []) (Numbers (pos 5 ∷ neg_ℤ (pos 1) ∷ []))) }
    ensures post { SpellsCallLine (words (codes "12 iget_var 7 v")) (12, call.Post 7 Iget (codes "v") (given_of form.Var [] [] [] []) (Numbers [])) }
    ensures wait { SpellsCallLine (words (codes "1 wait 3 7")) (1, call.Wait false (Listed (3 ∷ 7 ∷ []))) }
    ensures all { SpellsCallLine (words (codes "1 wait_all all")) (1, call.Wait true Every) }
    ensures sequence { SpellsValues None (words (codes "seq 3 4 -5")) (Numbers (pos 4 ∷ neg_ℤ (pos 1) ∷ neg_ℤ (pos 6) ∷ [])) }
    ensures bits { SpellsValues None (words (codes "x3F800000 xf")) (Bits (0x3F800000 ∷ 15 ∷ [])) }
{}

/// The lines of a text, and the script that it spells.
pub fn worked_text()
    ensures lines { said_lines script_halves ≡ lines_of (record {
      head = words (codes "create 1");
      before_data = words (codes "ranks 2") ∷ words (codes "dim x 4") ∷ words (codes "var int v [x]") ∷ [];
      after_data = words (codes "0 put_vara_all v [0] [2] 1 2") ∷ words (codes "1 put_vara_all v [2] [2] 3 4") ∷ [];
    }) }
    ensures remarks { said_lines (text_line (codes "# a remark") ++ text_line [] ++ text_line (codes "open")) ≡ words (codes "open") ∷ [] }
    ensures spells { utf8_valid_len script_halves ≡ length script_halves → Spells script_halves halves_read }
{}

/// Texts of which each line by itself says something, and which spell no script: a call of a rank that is none, and an id under
/// which a rank posts twice.
pub fn worked_refusals()
    ensures rank { (script : Script) → Spells (text_line (codes "create 1") ++ text_line (codes "ranks 2") ++ text_line (codes "data")
        ++ text_line (codes "2 buffer_detach") ++ text_line (codes "end")) script → ⊥ }
    ensures id { (script : Script) → Spells (text_line (codes "create 1") ++ text_line (codes "ranks 1") ++ text_line (codes "var int v []") ++ text_line (codes "data")
        ++ text_line (codes "0 iget_var 7 v") ++ text_line (codes "0 iget_var 7 v") ++ text_line (codes "end")) script → ⊥ }
{}
