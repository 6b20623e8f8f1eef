// The rule table: ten numbers for each rule, rules counted from 1. They are the conclusion's form, the premise count,
// four premise forms, and four counts of entries that a premise's context adds; 255 where there is no premise. Rows 68
// and 69 are rules 33 and 34 as edition 3 has them.
ghost use Rattle.std.specs.Prelude.{◌≡◌, ◌<◌, ◌≤◌};
ghost use Rattle.terms.specs.Decides.{Decides};
ghost use Rattle.rules.specs.RuleTable.{IsRule, rule_known, rule_table, table_at, premise_count, demand, rule_row, form_of};

// Rows count from 1.
const RULE_COUNT: usize = 69;

const TABLE: [u8; 690] = [
    // 1 WF-NIL
    0, 0, 255, 255, 255, 255, 255, 255, 255, 255,
    // 2 WF-CONS
    0, 2, 0, 1, 255, 255, 0, 0, 255, 255,
    // 3 WT-VAR
    1, 1, 0, 255, 255, 255, 0, 255, 255, 255,
    // 4 WT-PI
    1, 2, 1, 1, 255, 255, 0, 1, 255, 255,
    // 5 WT-ABS
    1, 1, 1, 255, 255, 255, 1, 255, 255, 255,
    // 6 WT-APP
    1, 2, 1, 1, 255, 255, 0, 0, 255, 255,
    // 7 WT-UNIV
    1, 1, 0, 255, 255, 255, 0, 255, 255, 255,
    // 8 WT-SIG
    1, 2, 1, 1, 255, 255, 0, 1, 255, 255,
    // 9 WT-PAIR
    1, 3, 1, 1, 1, 255, 0, 0, 0, 255,
    // 10 WT-PROJ1
    1, 1, 1, 255, 255, 255, 0, 255, 255, 255,
    // 11 WT-PROJ2
    1, 1, 1, 255, 255, 255, 0, 255, 255, 255,
    // 12 WT-NAT
    1, 1, 0, 255, 255, 255, 0, 255, 255, 255,
    // 13 WT-ZERO
    1, 1, 0, 255, 255, 255, 0, 255, 255, 255,
    // 14 WT-SUCC
    1, 1, 1, 255, 255, 255, 0, 255, 255, 255,
    // 15 WT-IND
    1, 4, 1, 1, 1, 1, 1, 0, 0, 2,
    // 16 WT-CONV
    1, 2, 1, 3, 255, 255, 0, 0, 255, 255,
    // 17 E-REFL
    2, 1, 1, 255, 255, 255, 0, 255, 255, 255,
    // 18 E-SYM
    2, 1, 2, 255, 255, 255, 0, 255, 255, 255,
    // 19 E-TRANS
    2, 2, 2, 2, 255, 255, 0, 0, 255, 255,
    // 20 E-PI
    2, 2, 2, 2, 255, 255, 0, 1, 255, 255,
    // 21 E-ABSEXT
    2, 1, 2, 255, 255, 255, 1, 255, 255, 255,
    // 22 E-APP
    2, 2, 2, 2, 255, 255, 0, 0, 255, 255,
    // 23 E-SIG
    2, 2, 2, 2, 255, 255, 0, 1, 255, 255,
    // 24 E-PAIREXT
    2, 2, 2, 2, 255, 255, 0, 0, 255, 255,
    // 25 E-PROJ1
    2, 1, 2, 255, 255, 255, 0, 255, 255, 255,
    // 26 E-PROJ2
    2, 1, 2, 255, 255, 255, 0, 255, 255, 255,
    // 27 E-SUC
    2, 1, 2, 255, 255, 255, 0, 255, 255, 255,
    // 28 E-IND
    2, 4, 2, 2, 2, 2, 1, 0, 0, 2,
    // 29 E-CONV
    2, 2, 2, 3, 255, 255, 0, 0, 255, 255,
    // 30 E-APPABS
    2, 2, 1, 1, 255, 255, 0, 1, 255, 255,
    // 31 E-PROJPAIR1
    2, 3, 1, 1, 1, 255, 0, 0, 0, 255,
    // 32 E-PROJPAIR2
    2, 3, 1, 1, 1, 255, 0, 0, 0, 255,
    // 33 E-INDZERO
    2, 2, 1, 1, 255, 255, 0, 2, 255, 255,
    // 34 E-INDSUC
    2, 3, 1, 1, 1, 255, 0, 0, 2, 255,
    // 35 L-TRANS
    3, 2, 3, 3, 255, 255, 0, 0, 255, 255,
    // 36 L-EQ
    3, 1, 2, 255, 255, 255, 0, 255, 255, 255,
    // 37 L-UNIV
    3, 1, 0, 255, 255, 255, 0, 255, 255, 255,
    // 38 L-PI
    3, 2, 3, 3, 255, 255, 0, 1, 255, 255,
    // 39 L-SIG
    3, 2, 3, 3, 255, 255, 0, 1, 255, 255,
    // 40 L-PIPROJ1
    3, 1, 3, 255, 255, 255, 0, 255, 255, 255,
    // 41 L-PIPROJ2
    3, 2, 3, 2, 255, 255, 0, 0, 255, 255,
    // 42 L-SIGPROJ1
    3, 1, 3, 255, 255, 255, 0, 255, 255, 255,
    // 43 L-SIGPROJ2
    3, 2, 3, 2, 255, 255, 0, 0, 255, 255,
    // 44 N-ABS
    4, 1, 4, 255, 255, 255, 0, 255, 255, 255,
    // 45 N-PAIR
    4, 2, 4, 4, 255, 255, 0, 0, 255, 255,
    // 46 N-PI
    4, 2, 4, 4, 255, 255, 0, 0, 255, 255,
    // 47 N-SIG
    4, 2, 4, 4, 255, 255, 0, 0, 255, 255,
    // 48 N-SUCC
    4, 1, 4, 255, 255, 255, 0, 255, 255, 255,
    // 49 N-UNIV
    4, 0, 255, 255, 255, 255, 255, 255, 255, 255,
    // 50 N-SNE
    4, 1, 5, 255, 255, 255, 0, 255, 255, 255,
    // 51 N-ZERO
    4, 0, 255, 255, 255, 255, 255, 255, 255, 255,
    // 52 N-NAT
    4, 0, 255, 255, 255, 255, 255, 255, 255, 255,
    // 53 N-EXP
    4, 2, 6, 4, 255, 255, 0, 0, 255, 255,
    // 54 N-VAR
    5, 0, 255, 255, 255, 255, 255, 255, 255, 255,
    // 55 N-APP
    5, 2, 5, 4, 255, 255, 0, 0, 255, 255,
    // 56 N-PROJ1
    5, 1, 5, 255, 255, 255, 0, 255, 255, 255,
    // 57 N-PROJ2
    5, 1, 5, 255, 255, 255, 0, 255, 255, 255,
    // 58 N-IND
    5, 4, 4, 5, 4, 4, 0, 0, 0, 0,
    // 59 N-APPABS
    6, 1, 4, 255, 255, 255, 0, 255, 255, 255,
    // 60 N-APPCONG
    6, 2, 4, 6, 255, 255, 0, 0, 255, 255,
    // 61 N-PROJPAIR1
    6, 1, 4, 255, 255, 255, 0, 255, 255, 255,
    // 62 N-PROJPAIR2
    6, 1, 4, 255, 255, 255, 0, 255, 255, 255,
    // 63 N-PROJCONG1
    6, 1, 6, 255, 255, 255, 0, 255, 255, 255,
    // 64 N-PROJCONG2
    6, 1, 6, 255, 255, 255, 0, 255, 255, 255,
    // 65 N-INDZERO
    6, 3, 4, 4, 4, 255, 0, 0, 0, 255,
    // 66 N-INDSUC
    6, 4, 4, 4, 4, 4, 0, 0, 0, 0,
    // 67 N-INDCONG
    6, 4, 4, 4, 4, 6, 0, 0, 0, 0,
    // 68 E-INDZERO of edition 3
    2, 3, 1, 1, 1, 255, 1, 0, 2, 255,
    // 69 E-INDSUC of edition 3
    2, 4, 1, 1, 1, 1, 1, 0, 0, 2,
];

// The rule table: every value of the type is that one table. A sheet's is made once (`rule_table`), and lent. Whoever
// has an array of these numbers can make one of it, and read it cell by cell.
#[derive(Clone, Copy)]
pub struct RuleTable {
    pub cells: [u8; 690],
    pub ghost is_table: { cells ≡ rule_table },
}

// What a rule asks of a premise: the form, and how many entries its context adds; 255 where there is no premise, as
// document 01 has the table.
#[derive(Clone, Copy, Debug, PartialEq, Eq)]
pub struct Demand {
    pub form: usize,
    pub added: usize,
}

// What a rule asks of its premises: how many there are, and what of each of four.
#[derive(Clone, Copy, Debug, PartialEq, Eq)]
pub struct RuleRow {
    pub count: usize,
    pub p: Demand,
    pub q: Demand,
    pub r: Demand,
    pub s: Demand,
}

// Is there such a rule? A rule is its number and no enum: a line holds any word there, and the definition `Instance` of
// the specs, which every check's contract names, is indexed by the number.
pub fn is_rule(rule: usize) -> bool
    ensures { result ≡ rule_known rule }
{
    (1 <= rule) & (rule <= RULE_COUNT)
}

// Is the row one of rules 33 and 34 with the motive? They stand behind all others.
pub fn cites_motive(rule: usize) -> bool
    ensures { Decides result (67 < rule) }
{
    67 < rule
}

// The table, for a whole sheet: the compiler makes a constant array anew wherever one is used.
pub fn rule_table() -> RuleTable
    ensures { result.cells ≡ rule_table }
{
    RuleTable { cells: TABLE }
}

impl RuleTable {
    // The number in a rule's row, columns counted from 0.
    fn at(&self, rule: usize, column: usize) -> usize
        requires { IsRule rule × (column < 10) }
        ensures { result ≡ table_at rule column }
    {
        self.cells[10 * (rule - 1) + column] as usize
    }

    // What the rule asks of the premise at place `j`.
    fn demand(&self, rule: usize, j: usize) -> Demand
        requires { IsRule rule × (j < 4) }
        ensures { result ≡ demand rule j }
    {
        Demand {
            form: self.at(rule, 2 + j),
            added: self.at(rule, 6 + j),
        }
    }

    // What the rule asks of its premises.
    pub fn row(&self, rule: usize) -> RuleRow
        requires { IsRule rule }
        ensures { result ≡ rule_row rule }
    {
        RuleRow {
            count: self.premise_count(rule),
            p: self.demand(rule, 0),
            q: self.demand(rule, 1),
            r: self.demand(rule, 2),
            s: self.demand(rule, 3),
        }
    }

    // How many premises the rule has.
    pub fn premise_count(&self, rule: usize) -> usize
        requires { IsRule rule }
        ensures value { result ≡ premise_count rule }
        ensures range { result ≤ 4 }
    {
        self.at(rule, 1)
    }
}

// The form of the conclusion, by the ranges of rules; 255, as the definition `form_of` of the specs has it, where there
// is no such rule.
pub fn conclusion_form(rule: usize) -> usize
    ensures { result ≡ form_of rule }
{
    match rule {
        1..=2 => 0,
        3..=16 => 1,
        17..=34 => 2,
        35..=43 => 3,
        44..=53 => 4,
        54..=58 => 5,
        59..=67 => 6,
        68..=RULE_COUNT => 2,
        _ => 255,
    }
}
