// Operators and brackets.
ghost use Rattle.std.specs.Prelude.{◌≡◌, ℕ, List, ◌∷◌, pos, negsuc, ◌≤ℤ◌};
ghost use Rattle.rules.specs.Tags.{operators as all_operators, first_standing, weight as weight_of};
ghost use Rattle.words.specs.Operators.{singles, FirstOperator};

use pieces::Operator;

// The operator of one byte that the byte is, if any: a table, since most bytes are none.
#[tactic(auto, unfolding(rules::specs::Tags::first_standing, byte_search::specs::Search::stands_at))]
fn single(b: u8) -> Option<Operator>
    ensures { (rest : List ℕ) → result ≡ first_standing singles (b ∷ rest) }
{
    match b {
        b'+' => Some(Operator::Plus),
        b'-' => Some(Operator::Minus),
        b'*' => Some(Operator::Mul),
        b'/' => Some(Operator::Div),
        b'%' => Some(Operator::Mod),
        b'.' => Some(Operator::Dot),
        b',' => Some(Operator::Comma),
        b':' => Some(Operator::Colon),
        b'~' => Some(Operator::Tilde),
        b'|' => Some(Operator::Pipe),
        b'=' => Some(Operator::Assign),
        b'>' => Some(Operator::Gt),
        b'<' => Some(Operator::Lt),
        b'(' => Some(Operator::ParenOpen),
        b')' => Some(Operator::ParenClose),
        b'[' => Some(Operator::BracketOpen),
        b']' => Some(Operator::BracketClose),
        b'{' => Some(Operator::BraceOpen),
        b'}' => Some(Operator::BraceClose),
        _ => None,
    }
}

// The operator at the front, if any: those of two bytes come first.
#[inline(always)]
#[tactic(auto, using(crate::proofs::Operating::first_operator), unfolding(rules::specs::Tags::first_standing, byte_search::specs::Search::stands_at))]
pub fn operator(rest: &[u8]) -> Option<Operator>
    ensures value { result ≡ first_standing all_operators rest.now }
    ensures first { FirstOperator rest.now result }
{
    match rest {
        [b'/', b'/', ..] => Some(Operator::FloorDiv),
        [b'*', b'*', ..] => Some(Operator::Pow),
        [b'=', b'=', ..] => Some(Operator::Eq),
        [b'!', b'=', ..] => Some(Operator::Ne),
        [b'>', b'=', ..] => Some(Operator::Gte),
        [b'<', b'=', ..] => Some(Operator::Lte),
        [b, ..] => single(*b),
        [] => None,
    }
}

// What an operator adds to the balance of brackets: an opener 1, a closer takes 1.
pub fn weight(operator: Operator) -> i64
    ensures value { result ≡ weight_of operator }
    ensures within { (negsuc 0 ≤ℤ result) × (result ≤ℤ pos 1) }
{
    match operator {
        Operator::ParenOpen | Operator::BracketOpen | Operator::BraceOpen => 1,
        Operator::ParenClose | Operator::BracketClose | Operator::BraceClose => -1,
        _ => 0,
    }
}
