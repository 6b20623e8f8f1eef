// Is a line an instance of its rule? First what the rule table asks of every rule, then by the conclusion's form and by
// rule to the rule's own check. The groups of rules 44 to 67, which look at no context, are in `normalisation`.
ghost use Rattle.std.specs.Prelude.{◌<◌, ◌≤◌};
ghost use Rattle.terms.specs.Decides.{Decides};
ghost use Rattle.rules.specs.Stated.{Follows};
ghost use Rattle.rules.specs.RuleChecks.{in_order, LineInTables, Shaped};

use crate::equality::{
    e_absext, e_app, e_appabs, e_conv, e_ind, e_indsuc, e_indzero, e_pairext, e_pi, e_proj1,
    e_proj2, e_projpair1, e_projpair2, e_refl, e_sig, e_suc, e_sym, e_trans,
};
use crate::judgments::{LineJudgment, Premises};
use crate::motives::gives_motive;
use crate::normalisation::{neutral_instance, normal_instance, step_instance};
use crate::shapes::shaped;
use crate::subtyping::{
    l_eq, l_pi, l_piproj1, l_piproj2, l_sig, l_sigproj1, l_sigproj2, l_trans, l_univ,
};
use crate::table::{RuleTable, conclusion_form};
use crate::tables::Tables;
use crate::typing::{
    wt_abs, wt_app, wt_conv, wt_ind, wt_nat, wt_pair, wt_pi, wt_proj1, wt_proj2, wt_sig, wt_succ,
    wt_univ, wt_var, wt_zero,
};
use crate::wellformed::{wf_cons, wf_nil};

// Rules 1 to 2, which conclude form 0.
fn wellformed_instance(tables: Tables, rule: usize, c: LineJudgment, ps: &Premises) -> bool
    requires line_in_tables { LineInTables tables.terms.now tables.contexts.now rule (in_order ps.now) c }
    requires shaped { Shaped tables.terms.now tables.contexts.now rule (in_order ps.now) c }
    requires le_rule { (1 ≤ rule) × (rule ≤ 2) }
    ensures { Decides result (Follows tables.entry.terms.now tables.entry.contexts.now rule (in_order ps.now) c) }
{
    match rule {
        1 => wf_nil(tables, c),
        2 => wf_cons(tables, c, ps.q),
        _ => false,
    }
}

// Rules 3 to 16, which conclude form 1.
fn typing_instance(tables: Tables, rule: usize, c: LineJudgment, ps: &Premises) -> bool
    requires line_in_tables { LineInTables tables.terms.now tables.contexts.now rule (in_order ps.now) c }
    requires shaped { Shaped tables.terms.now tables.contexts.now rule (in_order ps.now) c }
    requires le_rule { (3 ≤ rule) × (rule ≤ 16) }
    ensures { Decides result (Follows tables.entry.terms.now tables.entry.contexts.now rule (in_order ps.now) c) }
{
    match rule {
        3 => wt_var(tables, c),
        4 => wt_pi(tables, c, ps.p, ps.q),
        5 => wt_abs(tables, c, ps.p),
        6 => wt_app(tables.terms, c, ps.p, ps.q),
        7 => wt_univ(tables.terms, c),
        8 => wt_sig(tables, c, ps.p, ps.q),
        9 => wt_pair(tables.terms, c, ps.p, ps.q, ps.r),
        10 => wt_proj1(tables.terms, c, ps.p),
        11 => wt_proj2(tables.terms, c, ps.p),
        12 => wt_nat(tables.terms, c),
        13 => wt_zero(tables.terms, c),
        14 => wt_succ(tables.terms, c, ps.p),
        15 => wt_ind(tables, c, ps),
        16 => wt_conv(tables.terms, c, ps.p, ps.q),
        _ => false,
    }
}

// Rules 17 to 34, which conclude form 2.
fn equality_instance(tables: Tables, rule: usize, c: LineJudgment, ps: &Premises) -> bool
    requires line_in_tables { LineInTables tables.terms.now tables.contexts.now rule (in_order ps.now) c }
    requires shaped { Shaped tables.terms.now tables.contexts.now rule (in_order ps.now) c }
    requires le_rule { (17 ≤ rule) × (rule ≤ 34) }
    ensures { Decides result (Follows tables.entry.terms.now tables.entry.contexts.now rule (in_order ps.now) c) }
{
    match rule {
        17 => e_refl(tables.terms, c, ps.p),
        18 => e_sym(tables.terms, c, ps.p),
        19 => e_trans(tables.terms, c, ps.p, ps.q),
        20 => e_pi(tables, c, ps.p, ps.q),
        21 => e_absext(tables, c, ps.p),
        22 => e_app(tables.terms, c, ps.p, ps.q),
        23 => e_sig(tables, c, ps.p, ps.q),
        24 => e_pairext(tables.terms, c, ps.p, ps.q),
        25 => e_proj1(tables.terms, c, ps.p),
        26 => e_proj2(tables.terms, c, ps.p),
        27 => e_suc(tables.terms, c, ps.p),
        28 => e_ind(tables, c, ps),
        29 => e_conv(tables.terms, c, ps.p, ps.q),
        30 => e_appabs(tables, c, ps.p, ps.q),
        31 => e_projpair1(tables.terms, c, ps.p, ps.q, ps.r),
        32 => e_projpair2(tables.terms, c, ps.p, ps.q, ps.r),
        33 => e_indzero(tables, c, ps.p, ps.q),
        34 => e_indsuc(tables, c, ps.p, ps.q, ps.r),
        _ => false,
    }
}

// Rules 35 to 43, which conclude form 3.
fn subtyping_instance(tables: Tables, rule: usize, c: LineJudgment, ps: &Premises) -> bool
    requires line_in_tables { LineInTables tables.terms.now tables.contexts.now rule (in_order ps.now) c }
    requires shaped { Shaped tables.terms.now tables.contexts.now rule (in_order ps.now) c }
    requires le_rule { (35 ≤ rule) × (rule ≤ 43) }
    ensures { Decides result (Follows tables.entry.terms.now tables.entry.contexts.now rule (in_order ps.now) c) }
{
    match rule {
        35 => l_trans(tables.terms, c, ps.p, ps.q),
        36 => l_eq(tables.terms, c, ps.p),
        37 => l_univ(tables.terms, c),
        38 => l_pi(tables, c, ps.p, ps.q),
        39 => l_sig(tables, c, ps.p, ps.q),
        40 => l_piproj1(tables.terms, c, ps.p),
        41 => l_piproj2(tables.terms, c, ps.p, ps.q),
        42 => l_sigproj1(tables.terms, c, ps.p),
        43 => l_sigproj2(tables.terms, c, ps.p, ps.q),
        _ => false,
    }
}

// Rules 1 to 67: does the judgment `c` follow by the rule from those of the four premises that the rule uses?
// The others are not looked at.
pub fn is_instance(
    table: &RuleTable,
    tables: Tables,
    rule: usize,
    c: LineJudgment,
    ps: &Premises,
) -> bool
    requires line_in_tables { LineInTables tables.terms.now tables.contexts.now rule (in_order ps.now) c }
    requires rule_bound { rule ≤ 67 }
    ensures { Decides result (Follows tables.entry.terms.now tables.entry.contexts.now rule (in_order ps.now) c) }
{
    if shaped(table, tables, rule, c, ps) {
        let form = conclusion_form(rule);
        match form {
            0 => wellformed_instance(tables, rule, c, ps),
            1 => typing_instance(tables, rule, c, ps),
            2 => equality_instance(tables, rule, c, ps),
            3 => subtyping_instance(tables, rule, c, ps),
            4 => normal_instance(tables.terms, rule, c, ps),
            5 => neutral_instance(tables.terms, rule, c, ps),
            _ => step_instance(tables.terms, rule, c, ps),
        }
    } else {
        false
    }
}

// Rules 33 and 34 with the motive, rows 68 and 69: the first premise is the motive, and from those behind it the
// judgment follows by the rule as printed. Whoever calls these two tells the rows apart (`cites_motive`): so
// `e_indzero` and `e_indsuc` have one caller, into which they are compiled.
pub fn is_cited_instance(
    table: &RuleTable,
    tables: Tables,
    rule: usize,
    c: LineJudgment,
    ps: &Premises,
) -> bool
    requires line_in_tables { LineInTables tables.terms.now tables.contexts.now rule (in_order ps.now) c }
    requires lt_rule { 67 < rule }
    ensures { Decides result (Follows tables.entry.terms.now tables.entry.contexts.now rule (in_order ps.now) c) }
{
    let printed = Premises {
        p: ps.q,
        q: ps.r,
        r: ps.s,
        s: ps.s,
    };
    gives_motive(tables, c, ps.p) & is_instance(table, tables, rule - 35, c, &printed)
}
