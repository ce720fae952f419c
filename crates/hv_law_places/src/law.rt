// Laws on the places that refusals name. They do nothing when they are called.
ghost use Rattle.std.specs.Prelude.{◌≡◌, ◌⊎◌};
ghost use Rattle.hv_tree.specs.declared.place.Place.{Place};
ghost use Rattle.hv_tree.specs.declared.refusal.Rule.{Rule};
ghost use Rattle.hv_tree.specs.declared.refusal.Rule.TheVariants.{N3};
ghost use Rattle.hv_tree.specs.declared.ast.Tree.{Tree};
ghost use Rattle.hv_tree.specs.Tokens.{Tokens};
ghost use Rattle.hv_tree.specs.Grammar.{Spells};
ghost use Rattle.hv_tree.specs.Core.{Core, core_tree};
ghost use Rattle.hv_type_rules.specs.Names.{IsViolatedByNames};
ghost use Rattle.hv_type_rules.specs.TypeRules.{IsViolatedByTypes};
ghost use Rattle.hv_rules.specs.Rules.{IsViolatedByEvents};
ghost use Rattle.hv_law_places.specs.Places.{IsIn};
ghost use Rattle.hv_law_places.specs.TokenPlaces.{IsAmong, Rise};
ghost use Rattle.hv_law_places.specs.Ends.{EndApart};

/// Each place at which the program violates a rule of names, types or events stands in the program, or, where `main` lacks, is the beginning.
pub fn violations_name_places_of_the_tree()
    ensures names { (tree : Core) (r : Rule) (place : Place) → IsViolatedByNames tree r place → IsIn place tree ⊎ ((r ≡ N3) × (place.start ≡ 0)) }
    ensures types { (tree : Core) (r : Rule) (place : Place) → IsViolatedByTypes tree r place → IsIn place tree }
    ensures events { (tree : Core) (r : Rule) (place : Place) → IsViolatedByEvents tree r place → IsIn place tree }
{}

/// Each place of a program is that of one of the tokens that spell it.
pub fn trees_name_places_of_their_tokens()
    ensures { (tree : Tree) (tokens : Tokens) → Spells tree tokens → (place : Place) → IsIn place (core_tree tree) → IsAmong place tokens }
{}

/// No two bodies of a program end at one place, where each of the tokens that spell it begins behind those before it.
pub fn bodies_end_apart()
    ensures { (tree : Tree) (tokens : Tokens) → Spells tree tokens → Rise tokens → EndApart (core_tree tree) }
{}
