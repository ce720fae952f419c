// Laws on a source, its tokens and program, and on what `check` answers. They do nothing when they are called.
ghost use Rattle.std.specs.Prelude.{◌≡◌, ◌⊎◌, ℕ, List, Option, Some, None, Contains};
ghost use Rattle.hv_tree.specs.declared.place.Place.{Place};
ghost use Rattle.hv_tree.specs.declared.token.Token.{Token};
ghost use Rattle.hv_tree.specs.declared.refusal.Refusal.{Refusal};
ghost use Rattle.hv_tree.specs.declared.refusal.Rule.{Rule};
ghost use Rattle.hv_tree.specs.declared.refusal.Rule.TheVariants.{N3};
ghost use Rattle.hv_tree.specs.declared.ast.Tree.{Tree};
ghost use Rattle.hv_tree.specs.Tokens.{Tokens};
ghost use Rattle.hv_tree.specs.Grammar.{Spells};
ghost use Rattle.hv_tree.specs.Core.{core_tree};
ghost use Rattle.hv_tree.specs.Earlier.{IsFirst as FirstOf};
ghost use Rattle.hv_type_rules.specs.Names.{IsViolatedByNames};
ghost use Rattle.hv_type_rules.specs.TypeRules.{IsViolatedByTypes};
ghost use Rattle.hv_rules.specs.Rules.{IsViolatedByEvents};
ghost use Rattle.hv_token.specs.Lexes.{Lexes};
ghost use Rattle.hv_sem_copying.specs.Node.{Node};
ghost use Rattle.hv_sem_copying.specs.Meaning.{node_of, IsSafe};
ghost use Rattle.hv_law_places.specs.Places.{IsIn};
ghost use Rattle.hv_law_run_places.specs.NodePlaces.{in_node};
ghost use Rattle.hv_law_places.specs.TokenPlaces.{Rise};
ghost use Rattle.hv_law_places.specs.Ends.{EndApart};
ghost use Rattle.hv_law_checked.specs.Inside.{LiesIn, IsBehindCharacters, BeginApart};
ghost use Rattle.hv_law_safe.specs.Runs.{Runs};
ghost use Rattle.hv_check.specs.Checks.{IsRead, IsUnread, IsAccepted, IsFirst};
ghost use Rattle.hv_law_checked.specs.Placed.{IsPlaced};
ghost use Rattle.hv_law_checked.specs.Unread.{IsViolatedBy};

/// Each token of a source begins in it, and behind those before it. The rule that stops them is violated inside it too.
pub fn tokens_begin_inside_the_source()
    ensures inside { (bytes : List ℕ) (tokens : Tokens) (stop : Option Refusal) → Lexes bytes tokens stop → (token : Token) → Contains tokens token → LiesIn bytes token.place }
    ensures stops { (bytes : List ℕ) (tokens : Tokens) (stop : Refusal) → Lexes bytes tokens (Some stop) → LiesIn bytes stop.place }
    ensures rising { (bytes : List ℕ) (tokens : Tokens) (stop : Option Refusal) → Lexes bytes tokens stop → Rise tokens }
    ensures alone { (bytes : List ℕ) (tokens : Tokens) (stop : Option Refusal) → Lexes bytes tokens stop → BeginApart tokens }
{}

/// Each place of a program lies in the source that it was read of, and no two of its bodies end at one place.
pub fn programs_lie_inside_their_source()
    ensures inside { (bytes : List ℕ) (tokens : Tokens) (stop : Option Refusal) (tree : Tree) → Lexes bytes tokens stop → Spells tree tokens → (place : Place) → IsIn place (core_tree tree) → LiesIn bytes place }
    ensures apart { (bytes : List ℕ) (tokens : Tokens) (stop : Option Refusal) (tree : Tree) → Lexes bytes tokens stop → Spells tree tokens → EndApart (core_tree tree) }
{}

/// So does each place at which it ends with any budget, and each at which it violates a rule of names, types or events, but for the beginning where `main` lacks.
pub fn runs_and_refusals_name_places_inside_the_source()
    ensures runs { (bytes : List ℕ) (tokens : Tokens) (stop : Option Refusal) (tree : Tree) → Lexes bytes tokens stop → Spells tree tokens → (budget : ℕ) (node : Node) → node_of (core_tree tree) budget ≡ Some node → (place : Place) → Contains (in_node node) place → LiesIn bytes place }
    ensures names { (bytes : List ℕ) (tokens : Tokens) (stop : Option Refusal) (tree : Tree) → Lexes bytes tokens stop → Spells tree tokens → (r : Rule) (place : Place) → IsViolatedByNames (core_tree tree) r place → LiesIn bytes place ⊎ ((r ≡ N3) × (place.start ≡ 0)) }
    ensures types { (bytes : List ℕ) (tokens : Tokens) (stop : Option Refusal) (tree : Tree) → Lexes bytes tokens stop → Spells tree tokens → (r : Rule) (place : Place) → IsViolatedByTypes (core_tree tree) r place → LiesIn bytes place }
    ensures events { (bytes : List ℕ) (tokens : Tokens) (stop : Option Refusal) (tree : Tree) → Lexes bytes tokens stop → Spells tree tokens → (r : Rule) (place : Place) → IsViolatedByEvents (core_tree tree) r place → LiesIn bytes place }
{}

/// The place at which a source is refused is that of one of its bytes, but for the end at which a
/// program can't end yet and the beginning where `main` lacks.
pub fn refusals_name_places_of_the_source()
    ensures { (bytes : List ℕ) (r : Refusal) → IsFirst bytes r → IsPlaced bytes r }
{}

/// The bytes before that place are whole characters, so that its column counts characters.
pub fn refusals_stand_behind_characters()
    ensures { (bytes : List ℕ) (r : Refusal) → IsFirst bytes r → IsBehindCharacters bytes r.place }
{}

/// The program of an accepted source is never stuck, whatever the budget, if it only reads through its
/// parameters.
pub fn accepted_programs_are_safe()
    ensures { (bytes : List ℕ) (tree : Tree) → IsAccepted bytes tree → Runs (core_tree tree) → IsSafe (core_tree tree) }
{}

/// Of the rules on tokens and on the grammar a source that isn't read is refused by the first that it violates, by
/// place and then by rule, and one that is read violates none.
pub fn unread_sources_violate_that_first()
    ensures first { (bytes : List ℕ) (r : Refusal) → IsUnread bytes r → FirstOf (IsViolatedBy bytes) (Some r) }
    ensures none { (bytes : List ℕ) (tree : Tree) → IsRead bytes tree → FirstOf (IsViolatedBy bytes) None }
{}
