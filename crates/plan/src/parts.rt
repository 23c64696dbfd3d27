//! Pieces of a plan line. Cutting allocates nothing: each piece is a slice of the text.
ghost use Rattle.std.specs.Prelude.{◌≡◌, ◌≢◌, ◌<◌, ℕ, List, [], ◌∷◌, ◌++◌, option_map, MatchOption, IfSome};
ghost use Rattle.allotment.specs.Texts.{IsOnePart, IsCut, number_from};
ghost use Rattle.plan.specs.Drafts.{number_or_none};
ghost use Rattle.plan.specs.PlanLine.{has_mark, without_mark, tries_in, front_of, end_of};
ghost use Rattle.plan.specs.Cuts.{HasSixParts, HasNotSixParts};

/// The six parts of an option, in their order.
#[derive(Clone, Copy)]
pub struct OptionParts<'a> {
    pub kind: &'a str,
    pub supplier: &'a str,
    pub product: &'a str,
    pub first: &'a str,
    pub nights: &'a str,
    pub count: &'a str,
}

/// The six parts of an option. Returns `None` if the text has more or fewer.
pub fn option_parts(text: &str) -> Option<OptionParts<'_>>
    ensures six { MatchOption result (HasNotSixParts text.now) (λ six. HasSixParts text.now six) }
{
    let (kind, behind_kind) = cut(text)?;
    let (supplier, behind_supplier) = cut(behind_kind)?;
    let (product, behind_product) = cut(behind_supplier)?;
    let (first, behind_first) = cut(behind_product)?;
    let (nights, count) = cut(behind_first)?;
    match cut(count) {
        Some(_) => None,
        None => Some(OptionParts {
            kind,
            supplier,
            product,
            first,
            nights,
            count,
        }),
    }
}

/// The text before the first `/`, and the text after it.
fn cut(text: &str) -> Option<(&str, &str)>
    ensures cut { MatchOption result (IsOnePart text.now) (λ p. IsCut text.now p.0.now p.1.now) }
{
    text.split_once('/')
}

/// The step without the `*` at its end, and whether there was one.
pub fn split_mark(text: &str) -> (&str, bool)
    ensures rest { result.0.now ≡ without_mark text.now }
    ensures mark { result.1 ≡ has_mark text.now }
{
    match cut_last(text, b'*') {
        Some(rest) => (rest, true),
        None => (text, false),
    }
}

/// The line without the tries at its end, and their number. Returns `None` if it ends in no tries.
#[tactic(auto, using(crate::proofs::EndLemmas::tries_empty, crate::proofs::EndLemmas::tries_no_digit, crate::proofs::EndLemmas::tries_no_mark, crate::proofs::EndLemmas::tries_found))]
pub fn split_tries(text: &str) -> Option<(&str, u8)>
    ensures rest { IfSome result (λ p. p.0.now ≡ front_of text.now) }
    ensures tries { option_map (λ p. p.1) result ≡ tries_in (end_of text.now) }
{
    let digit = *text.as_bytes().last()?;
    if !digit.is_ascii_digit() {
        return None;
    }
    let front = cut_last(text, digit)?;
    let body = cut_last(front, b'!')?;
    Some((body, digit - b'0'))
}

/// The text without this ASCII character at its end. Returns `None` if it ends otherwise.
fn cut_last(text: &str, last: u8) -> Option<&str>
    requires ascii { last < 128 }

    ensures cut { MatchOption result ((front : List ℕ) → text.now ≢ front ++ last ∷ [])
        (λ rest. text.now ≡ rest.now ++ last ∷ []) }
{
    text.strip_suffix(char::from(last))
}

/// The number from 1 to 255 that a text spells, without leading zeros; 0 if it spells none of them.
pub fn number(text: &str) -> u64
    ensures number { result ≡ number_or_none (number_from 1 255 text.now) }
{
    let Some(first) = text.as_bytes().first() else {
        return 0;
    };
    if *first < b'1' || *first > b'9' {
        return 0;
    }
    match text.parse::<u8>() {
        Ok(number) => u64::from(number),
        Err(_) => 0,
    }
}
