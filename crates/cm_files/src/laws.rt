//! Laws of the fields that ask a catalogue, and the number that file specifications know.
ghost use Rattle.std.specs.Prelude.{◌≡◌, Bool};
ghost use Rattle.cm_fields.specs.Finish.{DecidesFinished};
ghost use Rattle.cm_fields.specs.Local.{IsLocal};
ghost use Rattle.cm_files.specs.Catalogue.{Catalogue};
ghost use Rattle.cm_files.specs.Fields.{directory, file, user};
ghost use Rattle.cm_fields.specs.declared.value.FileKind.{FileKind};
ghost use Rattle.cm_files.specs.declared.flags.Flags.{Flags};
ghost use Rattle.cm_files.specs.declared.generation.TheConstants.{GENERATION_LIMIT};

/// What a trial decides on the first bytes of a text it decides on every text that begins with them, with the
/// same number of bytes looked at; so a decision on a text is the decision on every longer text.
pub fn trials_are_local()
    ensures user { (c : Catalogue) → IsLocal (user c) }
    ensures directory { (new : Bool) → (c : Catalogue) → IsLocal (directory new c) }
    ensures file { (c : Catalogue) → (kind : FileKind) → (flags : Flags) → IsLocal (file c kind flags) }
{}

/// A trial of a finished text is a decision, and the end of the line is no part of a field.
pub fn finished_texts_are_decided()
    ensures user { (c : Catalogue) → DecidesFinished (user c) }
    ensures directory { (new : Bool) → (c : Catalogue) → DecidesFinished (directory new c) }
    ensures file { (c : Catalogue) → (kind : FileKind) → (flags : Flags) → DecidesFinished (file c kind flags) }
{}

/// The last generation that a file may have, as a numeral.
pub fn these_are_the_numbers()
    ensures generations { GENERATION_LIMIT ≡ 131071 }
{}
