// A law, which does nothing when it is called.
ghost use Rattle.std.specs.Prelude.{ℕ, List, Option, Decides};
ghost use Rattle.hv_symbols.specs.Texts.{has};
ghost use Rattle.hv_tree.specs.declared.place.Place.{Place};
ghost use Rattle.hv_tree.specs.declared.types.Name.{Name};
ghost use Rattle.hv_tree.specs.declared.ast.Operator.{Operator};
ghost use Rattle.hv_tree.specs.Core.{Core, CoreSteps};
ghost use Rattle.hv_decls.specs.Types.{ValueType, StructType};
ghost use Rattle.hv_decls.specs.Locals.{Local};
ghost use Rattle.hv_decls.specs.Sites.{Scope};
ghost use Rattle.hv_type_rules.specs.Typing.{Known, Signature};
ghost use Rattle.hv_type_rules.specs.TypeRules as rules;
ghost use Rattle.hv_type_synth.specs.Tests as tests;

/// Each test that judging types goes by decides what the rules of types say of the same.
pub fn tests_say_what_the_rules_say()
    ensures misfits { (asked : Option ValueType) (t : Known) → Decides (tests.misfits asked t) (rules.Misfits asked t) }
    ensures other { (a : ValueType) (t : Option ValueType) → Decides (tests.other a t) (rules.Other a t) }
    ensures differ { (a b : Known) → Decides (tests.differ a b) (rules.Differ a b) }
    ensures signature { (tree : Core) (scope : Scope) (place : Place) (t : Known) (s : Signature) → Decides (tests.signature_differs t s) (rules.SignatureDiffers tree scope place t s) }
    ensures equality { (o : Operator) → Decides (tests.is_equality o) (rules.IsEquality o) }
    ensures no_value { (l : Option Local) → Decides (tests.no_value l) (rules.NoValue l) }
    ensures no_handle { (l : Option Local) → Decides (tests.no_handle l) (rules.NoHandle l) }
    ensures handle { (l : Option Local) → Decides (tests.is_handle l) (rules.IsHandle l) }
    ensures read_only { (l : Option Local) → Decides (tests.is_read_only l) (rules.IsReadOnly l) }
    ensures index { (steps : CoreSteps) → Decides (tests.has_index steps) (rules.HasIndex steps) }
    ensures struct_name { (tree : Core) (name : Name) → Decides (tests.is_struct_name tree name) (rules.IsStructName tree name) }
    ensures no_array { (tree : Core) (scope : Scope) (place : Place) (t : Option ValueType) → Decides (tests.no_array t) (rules.NoArray tree scope place t) }
    ensures no_field { (tree : Core) (scope : Scope) (place : Place) (t : Option ValueType) (name : Name) → Decides (tests.no_field tree t name) (rules.NoField tree scope place t name) }
    ensures no_function { (tree : Core) (scope : Scope) (place : Place) (t : Option ValueType) → Decides (tests.no_function t) (rules.NoFunction tree scope place t) }
    ensures holds { (tree : Core) (holding : List (List ℕ)) → ((s : List ℕ) → Decides (has holding s) (rules.HoldsFunction tree (StructType s))) → (t : ValueType) → Decides (tests.holds holding t) (rules.HoldsFunction tree t) }
    ensures known_to_hold { (tree : Core) (holding : List (List ℕ)) → ((s : List ℕ) → Decides (has holding s) (rules.HoldsFunction tree (StructType s))) → (t : Known) → Decides (tests.known_to_hold holding t) (rules.KnownToHold tree t) }
{}
