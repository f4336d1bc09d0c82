// The classes of keys.
ghost use Rattle.std.specs.Prelude.{◌≡◌, true};
ghost use Rattle.cm_text.specs.Bytes.{is_text};
ghost use Rattle.cm_line.specs.Keys.{class_of};

/// What a key is to the editor of a line.
#[derive(Clone, Copy, Debug, PartialEq, Eq)]
pub enum KeyClass {
    /// A byte of the line: TAB, or a printing byte other than `?`.
    Text,
    /// CR or LF, which finish the line.
    End,
    /// CR or LF after a hyphen, which continue the line. No key is this by itself; [`Line::class`] tells it.
    ///
    /// [`Line::class`]: crate::Line::class
    Join,
    /// DEL, which removes the last byte.
    Rub,
    /// Control-W, which removes the last word.
    Word,
    /// Control-U, which removes the whole line.
    Erase,
    /// Control-R, which shows the line again.
    Show,
    /// Control-H, which brings back what stood before the faulty field of a refused line.
    Back,
    /// Control-C, which gives the line up.
    Stop,
    /// ESC, which completes the field.
    Escape,
    /// Control-F, which completes a part of the field.
    Part,
    /// `?`, which lists what may come.
    Help,
    /// Any other key.
    Other,
}

impl KeyClass {
    /// The class of a key by itself.
    #[tactic(auto, unfolding(crate::specs::Keys::class_of))]
    pub fn of(key: u8) -> KeyClass
        ensures value { result ≡ class_of key }
        ensures text { result ≡ KeyClass.Text → is_text key ≡ true }
    {
        match key {
            _ if cm_text::is_text(key) => KeyClass::Text,
            b'\r' | b'\n' => KeyClass::End,
            127 => KeyClass::Rub,
            23 => KeyClass::Word,
            21 => KeyClass::Erase,
            18 => KeyClass::Show,
            8 => KeyClass::Back,
            3 => KeyClass::Stop,
            27 => KeyClass::Escape,
            6 => KeyClass::Part,
            b'?' => KeyClass::Help,
            _ => KeyClass::Other,
        }
    }
}
