// A line of text as a record.
ghost use Rattle.std.specs.Prelude.{◌≡◌};
ghost use Rattle.daytext.specs.Lines.{record_after, line_meaning};

use crate::fault::LineFault;
use crate::keyword::Keyword;
use crate::words::{last, next_word, number};
use dayfile::record::Record;

fn edge(rest: &[u8]) -> Result<Record, LineFault>
    ensures { result ≡ record_after Keyword.Edge rest.now }
{
    let (from, rest) = number(rest)?;
    let to = last(rest)?;
    Ok(Record::Edge { from, to })
}

// Of the same form as `query`, but each names the fields of its record: a function for both would name them by place.
fn tree(rest: &[u8]) -> Result<Record, LineFault>
    ensures { result ≡ record_after Keyword.Tree rest.now }
{
    let (child, rest) = number(rest)?;
    let (parent, rest) = number(rest)?;
    let slots = last(rest)?;
    Ok(Record::Tree {
        child,
        parent,
        slots,
    })
}

fn query(rest: &[u8]) -> Result<Record, LineFault>
    ensures { result ≡ record_after Keyword.Query rest.now }
{
    let (priority, rest) = number(rest)?;
    let (period, rest) = number(rest)?;
    let deadline = last(rest)?;
    Ok(Record::Query {
        priority,
        period,
        deadline,
    })
}

// The record of a keyword and the bytes after it.
fn record_after(keyword: Keyword, rest: &[u8]) -> Result<Record, LineFault>
    ensures { result ≡ record_after keyword rest.now }
{
    match keyword {
        Keyword::Nodes => Ok(Record::Nodes { count: last(rest)? }),
        Keyword::Edge => edge(rest),
        Keyword::Tree => tree(rest),
        Keyword::Query => query(rest),
        Keyword::Release => Ok(Record::Release {
            number: last(rest)?,
        }),
        Keyword::Close => Ok(Record::Close {
            number: last(rest)?,
        }),
        Keyword::Run => Ok(Record::Run { slots: last(rest)? }),
    }
}

/// The record of a line, given without its end of line; none where the line has nothing but blanks and a comment.
pub fn parse(line: &[u8]) -> Result<Option<Record>, LineFault>
    ensures { result ≡ line_meaning line.now }
{
    let (word, rest) = next_word(line);
    if word.is_empty() {
        return Ok(None);
    }
    let keyword = Keyword::try_from(word)?;
    Ok(Some(record_after(keyword, rest)?))
}
