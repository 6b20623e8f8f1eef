// Tests on universes, as the rules speak of them: U_i is a universe row, nothing that is only equal to one.
ghost use Rattle.std.specs.Prelude.{[], ◌∷◌};
ghost use Rattle.terms.specs.Decides.{Decides};
ghost use Rattle.terms.specs.Rows.{term};
ghost use Rattle.terms.specs.Table.{RowsInTable};
ghost use Rattle.rules.specs.Conditions.{IsUniverse, NextUniverse, UniversesRise};

use terms::nodes::{Node, is_node, number};

// Does row `n` spell a universe?
pub fn is_universe(terms: &[u8], n: usize) -> bool
    requires { RowsInTable terms.now (n ∷ []) }
    ensures { Decides result (IsUniverse (term terms.now n)) }
{
    is_node(terms, n, Node::Univ(number(terms, n)))
}

// Does row `t` spell a universe, and row `u` the next one?
pub fn is_next_universe(terms: &[u8], t: usize, u: usize) -> bool
    requires { RowsInTable terms.now (t ∷ u ∷ []) }
    ensures { Decides result (NextUniverse (term terms.now t) (term terms.now u)) }
{
    let level = number(terms, t);
    is_node(terms, t, Node::Univ(level)) & is_node(terms, u, Node::Univ(level + 1))
}

// Do rows `t` and `u` spell universes whose levels do not fall?
pub fn universes_rise(terms: &[u8], t: usize, u: usize) -> bool
    requires { RowsInTable terms.now (t ∷ u ∷ []) }
    ensures { Decides result (UniversesRise (term terms.now t) (term terms.now u)) }
{
    is_universe(terms, t) & is_universe(terms, u) & (number(terms, t) <= number(terms, u))
}
