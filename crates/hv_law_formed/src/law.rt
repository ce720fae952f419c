// A law, which does nothing when it is called.
ghost use Rattle.hv_tree.specs.declared.ast.Tree.{Tree};
ghost use Rattle.hv_tree.specs.Tokens.{Tokens};
ghost use Rattle.hv_tree.specs.Grammar.{Spells};
ghost use Rattle.hv_tree.specs.Core.{core_tree};
ghost use Rattle.hv_law_formed.specs.Formed.{IsFormed, AreApart};

/// What tokens spell that stand at places of their own, as those of a source do, is formed so.
pub fn spelled_trees_are_formed()
    ensures { (tree : Tree) (tokens : Tokens) → Spells tree tokens → AreApart tokens → IsFormed (core_tree tree) }
{}
