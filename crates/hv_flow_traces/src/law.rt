// Laws, which do nothing when they are called.
ghost use Rattle.std.specs.Prelude.{◌≡◌, ◌↔◌, List, [], map};
ghost use Rattle.hv_tree.specs.Core.{Core};
ghost use Rattle.hv_rules.specs.Flow.{Flow, IsTrace};
ghost use Rattle.hv_decls.specs.Locals.{CoreBody};
ghost use Rattle.hv_flow_traces.specs.Mapped.{mapped};
ghost use Rattle.hv_flow_traces.specs.Carried.{Steady, carrying, Carries, without};
ghost use Rattle.hv_flow_traces.specs.Opened.{IsOpenedAt};

/// A flow whose events are replaced has the replaced traces, and no others.
pub fn mapped_flows_have_the_traces<M, E>()
    ensures { (g : M → E) (f : Flow M) (es : List E) → IsTrace (mapped g f) es ↔ ((ms : List M) × IsTrace f ms × (es ≡ map g ms)) }
{}

/// Where the text tells a state, the flow whose events carry it has the traces whose events carry
/// what the events before them leave, and no others.
pub fn carrying_flows_have_the_traces<M, S>()
    ensures { (next : M → S → S) (f : Flow M) (s : S) → Steady next f s → (ps : List (M × S)) → IsTrace (carrying next f s) ps ↔ (IsTrace f (without ps) × Carries next ps s) }
{}

/// The accesses that are open at an event of a body are those that the text before it leaves open,
/// whatever run leads there.
pub fn open_accesses_are_lexical()
    ensures { (tree : Core) (body : CoreBody) → IsOpenedAt tree body }
{}
