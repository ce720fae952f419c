//! A mark that may be left out.

ghost use Rattle.hv_syn_grammar.specs.Reads.{Reads};
ghost use Rattle.hv_syn_grammar.specs.Statements as spec;

use hv_syn_grammar::{Cursor, Stop};

/// A `;`, if there is one.
#[tactic(auto, unfolding(hv_syn_grammar::specs::Statements::semicolon))]
pub(crate) fn semicolon(cursor: &mut Cursor<'_>) -> Result<(), Stop>
    ensures { Reads (spec.semicolon cursor.old) result cursor.new }
{
    if cursor.sees_mark(";") {
        cursor.mark(";")?;
    }
    Ok(())
}
