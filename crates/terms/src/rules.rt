// The rules of reduction: which rows it drops.
ghost use Rattle.std.specs.Prelude.{◌≡◌};
ghost use Rattle.terms.specs.Rules.{rule_number, rule_of, RuleSaid};

use refusal::Refusal;

#[derive(Clone, Copy, PartialEq, Eq)]
pub enum Rule {
    // A row left with only the parent is dropped.
    Published,
    // Such rows are kept.
    Keep,
}

// A rule's number, the published one's being 0.
impl From<Rule> for usize {
    ghost from_gives = { λ rule number. number ≡ rule_number rule };

    fn from(rule: Rule) -> usize {
        match rule {
            Rule::Published => 0,
            Rule::Keep => 1,
        }
    }
}

// The rule of a number that has one; a number that has none is taken for the keeping rule's.
#[tactic(auto, unfolding(crate::specs::Rules::rule_of))]
pub fn rule_of(number: usize) -> Rule
    ensures { result ≡ rule_of number }
{
    match number {
        0 => Rule::Published,
        _ => Rule::Keep,
    }
}

// The rule of a number, or refusal 20 where it has none.
impl TryFrom<usize> for Rule {
    type Error = Refusal;

    ghost try_from_gives = { RuleSaid };

    fn try_from(number: usize) -> Result<Rule, Refusal> {
        match number {
            0 => Ok(Rule::Published),
            1 => Ok(Rule::Keep),
            _ => Err(Refusal::Rule),
        }
    }
}
