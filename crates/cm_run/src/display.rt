// Displays, as laws speak of them.
ghost use Rattle.std.specs.Prelude.{ℕ, List};
ghost use Rattle.cm_io.specs.Display.{IsDisplay};

/// What shows the bytes that it is fed. The laws of displays in [`laws`](crate::laws) hold of each. It has no code,
/// since the engine puts its bytes into any sink and asks no display. The plain screen of `tt_screen` is one.
pub trait Display {
    /// What it is at a moment.
    ghost State: { Type 0 };

    /// What it is after these bytes.
    ghost feed: { State → List ℕ → State };

    /// The row that it writes on is this text, and the next byte goes after it.
    ghost holds: { State → List ℕ → Type 0 };

    /// It does with printed bytes, bells, rubouts and line feeds what a display does.
    ghost is_display: { IsDisplay feed holds };
}
