// The word that a record's line begins with.
ghost use Rattle.std.specs.Prelude.{◌≡◌};
ghost use Rattle.daytext.specs.Lines.{keyword_named};

use crate::fault::LineFault;

/// One for each kind of record.
#[derive(Clone, Copy)]
pub enum Keyword {
    Nodes,
    Edge,
    Tree,
    Query,
    Release,
    Close,
    Run,
}

impl TryFrom<&[u8]> for Keyword {
    type Error = LineFault;

    ghost try_from_gives = { λ word r. r ≡ keyword_named word.now };

    fn try_from(word: &[u8]) -> Result<Keyword, LineFault> {
        match word {
            b"nodes" => Ok(Keyword::Nodes),
            b"edge" => Ok(Keyword::Edge),
            b"tree" => Ok(Keyword::Tree),
            b"query" => Ok(Keyword::Query),
            b"release" => Ok(Keyword::Release),
            b"close" => Ok(Keyword::Close),
            b"run" => Ok(Keyword::Run),
            _ => Err(LineFault::UnknownWord),
        }
    }
}
