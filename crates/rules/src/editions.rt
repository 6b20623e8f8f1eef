// Editions: which are defined, and the row of the rule table that each gives for a rule's number.
ghost use Rattle.std.specs.Prelude.{◌≡◌};
ghost use Rattle.rules.specs.Editions.{edition_known, last_rule, motive_asked, row_in};

// Editions count from 1.
const LAST_EDITION: usize = 3;

// Is the edition defined?
pub fn is_edition(edition: usize) -> bool
    ensures { result ≡ edition_known edition }
{
    (1 <= edition) & (edition <= LAST_EDITION)
}

// The last rule that the edition admits.
fn last_rule(edition: usize) -> usize
    ensures { result ≡ last_rule edition }
{
    if edition <= 1 { 43 } else { 67 }
}

// Does the rule, 33 or 34, take the motive as its first premise in the edition?
pub fn asks_motive(edition: usize, rule: usize) -> bool
    ensures { result ≡ motive_asked edition rule }
{
    (3 <= edition) & ((33 <= rule) & (rule <= 34))
}

// The row of the rule table for a rule in the edition; 0, as the definition `row_in` of the specs has it, where the
// edition does not admit the rule.
pub fn row_in(edition: usize, rule: usize) -> usize
    ensures { result ≡ row_in edition rule }
{
    if rule <= last_rule(edition) {
        if asks_motive(edition, rule) {
            rule + 35
        } else {
            rule
        }
    } else {
        0
    }
}
