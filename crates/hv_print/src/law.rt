// Laws, which do nothing when they are called.
ghost use Rattle.std.specs.Prelude.{◌≡◌, ℕ, List, None};
ghost use Rattle.hv_tree.specs.declared.ast.Tree.{Tree};
ghost use Rattle.hv_tree.specs.Tokens.{Tokens};
ghost use Rattle.hv_tree.specs.Grammar.{Spells};
ghost use Rattle.hv_tree.specs.Printed.{Printed};
ghost use Rattle.hv_token.specs.Lexes.{Lexes};
ghost use Rattle.hv_print.specs.Aside.{Aside};
ghost use Rattle.hv_print.specs.ReadBack.{IsWritten, IsShort, ReadsAs};

/// Every program that is read of a source is spelled by tokens that a lexer makes.
pub fn read_programs_are_written()
    ensures { (bytes : List ℕ) (tokens : Tokens) (tree : Tree) → Lexes bytes tokens None → Spells tree tokens → IsWritten tree }
{}

/// What is printed of a program that such tokens spell is read back as the same program, places aside.
pub fn printed_programs_are_read_back()
    ensures { (tree : Tree) → IsWritten tree → IsShort tree → ReadsAs (Printed tree) tree }
{}

/// Two such programs with the same printed form are the same, places aside.
pub fn printed_forms_tell_programs_apart()
    ensures { (a b : Tree) → IsWritten a → IsWritten b → IsShort a → Printed a ≡ Printed b → Aside a ≡ Aside b }
{}
