// The own checks of rules 1 and 2, contexts.
ghost use Rattle.std.specs.Prelude.{[], ◌∷◌};
ghost use Rattle.terms.specs.Decides.{Decides};
ghost use Rattle.rules.specs.Subjects.{used_subjects};
ghost use Rattle.rules.specs.Contexts.{InTables};
ghost use Rattle.rules.specs.RuleChecks.{RuleInTables, FollowsPlaced};

use crate::contexts::type_of;
use crate::judgments::LineJudgment;
use crate::tables::Tables;
use crate::universes::is_universe;
use terms::nodes::same_term;

// WF-NIL
pub fn wf_nil(tables: Tables, c: LineJudgment) -> bool
    requires { RuleInTables tables.terms.now tables.contexts.now 1 [] c }
    ensures { Decides result (FollowsPlaced tables.entry.terms.now tables.entry.contexts.now 1 [] c) }
{
    tables.same_context(c.context, 0)
}

// WF-CONS: the premises stand in the conclusion's context without its last entry.
pub fn wf_cons(tables: Tables, c: LineJudgment, q: LineJudgment) -> bool
    requires { InTables tables.terms.now tables.contexts.now (c.context ∷ []) (used_subjects 1 q) }
    ensures { (p : LineJudgment) → Decides result (FollowsPlaced tables.entry.terms.now tables.entry.contexts.now 2 (p ∷ q ∷ []) c) }
{
    let n = c.context;
    if n == 0 {
        return false;
    }
    same_term(tables.terms, type_of(tables.contexts, n), q.s1) & is_universe(tables.terms, q.s3)
}
