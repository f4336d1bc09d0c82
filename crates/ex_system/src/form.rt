// What a run over a store is asked for.
ghost use Rattle.std.specs.Prelude.{◌≡◌};
ghost use Rattle.std.specs.Option.{option_map};
ghost use Rattle.ex_system.specs.WordViews.{form_view};
ghost use Rattle.ex_system.specs.Form.{in_out, is_name};

/// What a run over a store is asked for.
#[derive(Clone, Copy)]
pub struct Form<'a> {
    /// Whether the log is written.
    pub logs: bool,
    /// The name of the file whose image the run begins from; none where it begins anew.
    pub input: Option<&'a str>,
    /// The name of the file that the image is written to.
    pub out: &'a str,
}

/// Whether a word can name a file: it is not empty, and begins with no hyphen.
pub fn is_name(word: &str) -> bool
    ensures { result ≡ is_name word.now }
{
    !matches!(word.as_bytes(), [] | [b'-', ..])
}

/// What `IN OUT` asks for, with a log or without: the two names of two files. None where they are not.
pub fn in_out<'a>(logs: bool, input: &'a str, out: &'a str) -> Option<Form<'a>>
    ensures { option_map form_view result ≡ in_out logs input.now out.now }
{
    if is_name(input) && is_name(out) && input != out {
        return Some(Form {
            logs,
            input: Some(input),
            out,
        });
    }
    None
}
