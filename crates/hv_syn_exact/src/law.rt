// Laws, which do nothing when they are called.
ghost use Rattle.hv_tree.specs.Tokens.{Tokens};
ghost use Rattle.hv_tree.specs.Refusal.{most_open};
ghost use Rattle.hv_syn_grammar.specs.Declarations.{program};
ghost use Rattle.hv_syn_exact.specs.Outcomes.{Outcome};

/// What is read of any list of tokens is its one program, or ends exactly where the grammar or the room for brackets does.
pub fn programs_are_read_exactly()
    ensures { (tokens : Tokens) → Outcome tokens (program most_open tokens) }
{}
