//! Laws of the fields of a command language.
ghost use Rattle.std.specs.Prelude.{◌≡◌, ◌<◌, ℕ, false, List, ◌∷◌, ◌++◌, length, Option, is_some};
ghost use Rattle.cm_hooks.specs.Among.{has_name, verdict_among};
ghost use Rattle.cm_hooks.specs.declared.answer.Answer.TheVariants.{Yes};
ghost use Rattle.cm_net.specs.Mac.{IsMacText};
ghost use Rattle.cm_net.specs.Reads.{Reads};
ghost use Rattle.cm_net.specs.declared.mac.Mac.{Mac};
ghost use Rattle.cm_speech.specs.Address.{is_mac};
ghost use Rattle.cm_speech.specs.declared.rules.TheConstants.{FIRST_LIST_HOOK, IPV4_HOOK, IPV4_PREFIX_HOOK, IPV6_HOOK, IPV6_PREFIX_HOOK, MAC_HOOK};

/// What reads MAC addresses finds one in a text exactly where the text is one in the meanings of the rules. Of the
/// other addresses the meanings name what is read themselves.
pub fn a_mac_address_is_taken_where_it_is_read()
    ensures { (text : List ℕ) → (result : Option Mac) → Reads IsMacText text result
        → is_some result ≡ is_mac text }
{}

/// A name that is typed whole is taken with its number in its list, also where others begin with it, if no other is the
/// same.
pub fn a_whole_name_is_taken()
    ensures { (front more : List (List ℕ)) → (name : List ℕ) → 0 < length name
        → has_name front name ≡ false → has_name more name ≡ false
        → verdict_among (front ++ name ∷ more) name ≡ Yes (length front) }
{}

/// The numbers of the hooks.
pub fn these_are_the_numbers()
    ensures ipv4 { IPV4_HOOK ≡ 0 }
    ensures ipv4_prefix { IPV4_PREFIX_HOOK ≡ 1 }
    ensures ipv6 { IPV6_HOOK ≡ 2 }
    ensures ipv6_prefix { IPV6_PREFIX_HOOK ≡ 3 }
    ensures mac { MAC_HOOK ≡ 4 }
    ensures lists { FIRST_LIST_HOOK ≡ 5 }
{}
