// The two tables that a sheet's judgments are read by, and how its contexts are compared.
ghost use Rattle.std.specs.Prelude.{◌≡◌, [], ◌∷◌};
ghost use Rattle.terms.specs.Decides.{Decides};
ghost use Rattle.terms.specs.Term.{nat};
ghost use Rattle.terms.specs.Rows.{term};
ghost use Rattle.rules.specs.Contexts.{context, ContextsInTable, InTables};

use crate::contexts::{parent, type_of};
use terms::nodes::{Node, is_node};

// The bytes of the terms and of the contexts. That what a call names lies in them is asked of each call (`InTables`,
// `RuleInTables`, `LineInTables`, ..): a type could say that both are well formed, not which rows and contexts are
// named.
#[derive(Clone, Copy)]
pub struct Tables<'a> {
    pub terms: &'a [u8],
    pub contexts: &'a [u8],
}

impl<'a> Tables<'a> {
    // Are contexts `m` and `n` equal? The tables are only spoken of: equal contexts have equal numbers.
    pub fn same_context(self, m: usize, n: usize) -> bool
        requires { ContextsInTable self.terms.now self.contexts.now (m ∷ n ∷ []) }
        ensures { Decides result (context self.entry.terms.now self.entry.contexts.now m ≡ context self.entry.terms.now self.entry.contexts.now n) }
    {
        m == n
    }

    // Is context `n` the context `base` with the type of row `row` added? Equal terms have equal rows, so that none is
    // read.
    pub fn extends(self, n: usize, base: usize, row: usize) -> bool
        requires { InTables self.terms.now self.contexts.now (n ∷ base ∷ []) (row ∷ []) }
        ensures { Decides result (context self.entry.terms.now self.entry.contexts.now n ≡ term self.entry.terms.now row ∷ context self.entry.terms.now self.entry.contexts.now base) }
    {
        if n == 0 {
            return false;
        }
        (type_of(self.contexts, n) == row) & (parent(self.contexts, n) == base)
    }

    // Is context `n` the context `base` with Nat added? Nat need have no row.
    pub fn extends_nat(self, n: usize, base: usize) -> bool
        requires { ContextsInTable self.terms.now self.contexts.now (n ∷ base ∷ []) }
        ensures { Decides result (context self.entry.terms.now self.entry.contexts.now n ≡ nat ∷ context self.entry.terms.now self.entry.contexts.now base) }
    {
        if n == 0 {
            return false;
        }
        is_node(self.terms, type_of(self.contexts, n), Node::Nat)
            & (parent(self.contexts, n) == base)
    }

    // Is context `n` the context `base` with Nat and then the type of row `row` added?
    pub fn extends_nat_then(self, n: usize, base: usize, row: usize) -> bool
        requires { InTables self.terms.now self.contexts.now (n ∷ base ∷ []) (row ∷ []) }
        ensures { Decides result (context self.entry.terms.now self.entry.contexts.now n ≡ term self.entry.terms.now row ∷ nat ∷ context self.entry.terms.now self.entry.contexts.now base) }
    {
        if n == 0 {
            return false;
        }
        (type_of(self.contexts, n) == row) & self.extends_nat(parent(self.contexts, n), base)
    }
}
