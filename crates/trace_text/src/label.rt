//! What a count is of.
//! This project's own.
ghost use Rattle.std.specs.Prelude.{◌≡◌, ◌≤◌, length};
ghost use Rattle.trace_text.specs.Lines as spec;

/// What a count is of: the word before it.
#[derive(Clone, Copy, Debug, PartialEq, Eq)]
pub enum Label {
    Recovery,
    Votes,
    Spared,
    Frames,
    Guarded,
    /// Votes without a value, printed as `none`.
    NoVote,
    Working,
    Digest,
    End,
}

/// The word of a label.
pub fn label_word(label: Label) -> &'static [u8]
    ensures word { result.now ≡ spec.label_word label }
    ensures short { length result.now ≤ 8 }
{
    match label {
        Label::Recovery => b"recovery",
        Label::Votes => b"votes",
        Label::Spared => b"spared",
        Label::Frames => b"frames",
        Label::Guarded => b"guarded",
        Label::NoVote => b"none",
        Label::Working => b"working",
        Label::Digest => b"digest",
        Label::End => b"end",
    }
}
