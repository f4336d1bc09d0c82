// The kinds of record.
ghost use Rattle.std.specs.Prelude.{◌≡◌};
ghost use Rattle.ex_image.specs.Reading.{is_ended, may_follow};

/// Which record was read last.
#[derive(Clone, Copy, PartialEq)]
pub(crate) enum Tag {
    /// None yet.
    Start,
    /// The head.
    Head,
    /// A directory.
    Directory,
    /// The connected directory.
    Connected,
    /// A logical name.
    Logical,
    /// A file.
    File,
    /// An entry of the print queue.
    Request,
    /// The end.
    End,
}

impl Tag {
    /// Whether it ends an image.
    pub(crate) fn is_ended(self) -> bool
        ensures { result ≡ is_ended self }
    {
        self == Tag::End
    }

    /// Whether a record of another kind may be after one of this kind.
    pub(crate) fn may_precede(self, next: Tag) -> bool
        ensures { result ≡ may_follow self next }
    {
        match self {
            Tag::Start => next == Tag::Head,
            Tag::Head => next == Tag::Directory,
            Tag::Directory => matches!(next, Tag::Directory | Tag::Connected),
            Tag::Connected | Tag::Logical => {
                matches!(next, Tag::Logical | Tag::File | Tag::Request | Tag::End)
            }
            Tag::File => matches!(next, Tag::File | Tag::Request | Tag::End),
            Tag::Request => matches!(next, Tag::Request | Tag::End),
            Tag::End => false,
        }
    }
}
