// The lines of a text.
ghost use Rattle.std.specs.Prelude.{◌≡◌, ◌≤◌, length};
ghost use Rattle.std.specs.List.{prefix_len};
ghost use Rattle.textfile.specs.Texts.{in_line};
ghost use Rattle.std.specs.Iterator.{at_most};
ghost use Rattle.textfile.specs.Steps.{NextLine};

// How many bytes the first line has, without the line feed that ends it.
fn count_line(text: &[u8]) -> usize
    ensures value { result ≡ prefix_len in_line text.now }
    ensures bound { result ≤ length text.now }
{
    text.iter().take_while(|byte| **byte != b'\n').count()
}

/// The lines of a text, without their ends.
#[derive(Clone, Copy)]
pub(crate) struct Lines<'a>(pub(crate) &'a [u8]);

impl<'a> Iterator for Lines<'a> {
    type Item = &'a [u8];

    ghost next_gives = { NextLine };

    ghost remaining = { λ s. at_most (length s.0.now) };

    fn next(&mut self) -> Option<&'a [u8]> {
        if self.0.is_empty() {
            return None;
        }
        let (line, end) = self.0.split_at(count_line(self.0));
        self.0 = end.get(1..).unwrap_or(end);
        Some(line)
    }
}
