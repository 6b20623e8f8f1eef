// The tables that cases are run over, and the check of both.
ghost use Rattle.std.specs.Prelude.{◌*◌, ◌≤◌, length};
ghost use Rattle.terms.specs.Decides.{Decides};
ghost use Rattle.rules_demo.specs.Cases.{SoundTables};

use rules::contexts::check_contexts;
use rules::tables::Tables;
use terms::sizes::check_terms;

// Tables of `t` terms and of `n` contexts that have passed the check.
#[derive(Clone, Copy)]
pub struct CheckedTables<'a> {
    pub tables: Tables<'a>,
    pub t: usize,
    pub n: usize,
    ghost sound: { SoundTables tables.terms.now t tables.contexts.now n },
}

// Are these so many terms and contexts well-formed tables, and no larger than a sheet's?
pub fn are_sound(terms: &[u8], t: usize, contexts: &[u8], n: usize) -> bool
    requires { (10 * t ≤ length terms.now) × (4 * n ≤ length contexts.now) }
    ensures { Decides result (SoundTables terms.now t contexts.now n) }
{
    if 3072 < t {
        return false;
    }
    if 256 < n {
        return false;
    }
    let mut work = [0u32; 3072];
    let Ok(()) = check_terms(terms, t, &mut work) else {
        return false;
    };
    check_contexts(contexts, t, n).is_ok()
}
