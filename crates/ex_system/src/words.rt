// Words where there are two or three of them.
ghost use Rattle.std.specs.Prelude.{◌≡◌};
ghost use Rattle.std.specs.Option.{option_map};
ghost use Rattle.ex_system.specs.WordViews.{pair_view, triple_view};
ghost use Rattle.ex_system.specs.Form.{pair_of, triple_of};

use cm_io::Words;

/// Two words.
#[derive(Clone, Copy)]
pub struct Pair<'a> {
    pub first: &'a str,
    pub second: &'a str,
}

/// Three words.
#[derive(Clone, Copy)]
pub struct Triple<'a> {
    pub first: &'a str,
    pub second: &'a str,
    pub third: &'a str,
}

/// The words, where there are two of them.
#[tactic(auto, using(crate::proofs::WordLaws::pair_of_two, crate::proofs::WordLaws::pair_of_others))]
pub fn as_pair(words: &Words) -> Option<Pair<'_>>
    ensures { option_map pair_view result ≡ pair_of words.now }
{
    if words.len() != 2 {
        return None;
    }
    Some(Pair {
        first: words.word(0),
        second: words.word(1),
    })
}

/// The words, where there are three of them.
#[tactic(auto, using(crate::proofs::WordLaws::triple_of_three, crate::proofs::WordLaws::triple_of_others))]
pub fn as_triple(words: &Words) -> Option<Triple<'_>>
    ensures { option_map triple_view result ≡ triple_of words.now }
{
    if words.len() != 3 {
        return None;
    }
    Some(Triple {
        first: words.word(0),
        second: words.word(1),
        third: words.word(2),
    })
}
