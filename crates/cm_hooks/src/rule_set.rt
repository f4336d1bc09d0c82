// What hooks that are stored mean.

/// A set of meanings for hooks that a program stores, by their ids: whether an atom is taken, how it is completed, and
/// the help text. Fields of stored hooks are name bytes, and no names of them are listed, whatever is meant. It has no
/// code: contracts cite it. Rules that are lent need none, since they mean what their value says.
pub trait RuleSet {
    ghost use Rattle.cm_hooks.specs.Meanings.{IsLawful, Meanings, on_names};

    /// What the hooks mean.
    ghost meant: { Meanings };

    /// What completes an atom is name bytes, and an atom with its whole completion has at most 255 bytes and is taken.
    ghost lawful: { IsLawful (on_names meant) };
}
