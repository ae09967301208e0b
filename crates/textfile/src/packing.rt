// A text as a day file.
ghost use Rattle.textfile.specs.Packing.{Packs};

use crate::fault::TextFault;
use crate::lines::Lines;
use daytext::encoder::encode;
use daytext::parser::parse;
use std::alloc::Global;

/// The day file of a text, or the first line that has no meaning.
pub fn pack(heap: Global, text: &[u8]) -> Result<Vec<u8>, TextFault>
    ensures { Packs text.now result }
{
    let mut file = Vec::new(heap);
    for (i, line) in Lines(text).enumerate() {
        let Some(record) = parse(line).map_err(|fault| TextFault::Line(i + 1, fault))? else {
            continue;
        };
        file.extend_from_slice(encode(record).as_slice())?;
    }
    Ok(file)
}
