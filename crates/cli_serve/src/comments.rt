//! Comments in a script.

ghost use Rattle.std.specs.Prelude.{◌≡◌};
ghost use Rattle.cli_serve.specs.Comments.{part_after, read_as, without_comments};

/// A part of a script.
#[derive(Clone, Copy)]
pub enum Part {
    /// What is in no other part.
    Plain,
    /// In a quoted text.
    Quoted,
    /// In a comment.
    Comment,
}

impl Part {
    // Returns the part of a byte, after a byte of this part.
    fn after(self, octet: u8) -> Part
        ensures { result ≡ part_after self octet }
    {
        match self {
            Part::Plain => {
                if octet == b'#' {
                    Part::Comment
                } else if octet == b'"' {
                    Part::Quoted
                } else {
                    Part::Plain
                }
            }
            Part::Quoted => if octet == b'"' {
                Part::Plain
            } else {
                Part::Quoted
            },
            Part::Comment => if octet == b'\n' {
                Part::Plain
            } else {
                Part::Comment
            },
        }
    }

    // Returns the byte that is read for a byte of this part.
    fn read_as(self, octet: u8) -> u8
        ensures { result ≡ read_as self octet }
    {
        match self {
            Part::Plain | Part::Quoted => octet,
            Part::Comment => b' ',
        }
    }
}

/// Replaces each byte of a comment by a space. A comment starts at a `#` that is not in a quoted text, and ends before
/// LF.
pub fn without_comments(mut script: Vec<u8>) -> Vec<u8>
    ensures { result.items ≡ without_comments script.items }
{
    let mut part = Part::Plain;
    for octet in script.iter_mut() {
        part = part.after(*octet);
        *octet = part.read_as(*octet);
    }
    script
}
