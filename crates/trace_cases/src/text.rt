// The lines of a text, with their numbers.
ghost use Rattle.std.specs.Prelude.{◌≡◌, ◌+◌, length};
ghost use Rattle.std.specs.Iterator.{at_most};

#[derive(Clone, Copy)]
pub struct Line<'a> {
    // From 1.
    pub number: u64,
    // Without its line feed, which a text's last line may lack.
    pub text: &'a [u8],
}

// The lines from one on. A copy goes over them once more.
#[derive(Clone, Copy)]
pub struct Lines<'a> {
    pub number: u64,
    rest: &'a [u8],
}

impl<'a> Lines<'a> {
    pub(crate) fn of(text: &'a [u8]) -> Self {
        Lines {
            number: 1,
            rest: text,
        }
    }
}

impl<'a> Iterator for Lines<'a> {
    type Item = Line<'a>;

    ghost remaining = { λ s. at_most (length s.rest.now) };

    fn next(&mut self) -> Option<Line<'a>> {
        if self.rest.is_empty() {
            return None;
        }
        let (text, end) = split_before(self.rest, |byte| *byte == b'\n');
        let line = Line {
            number: self.number,
            text,
        };
        self.number = self.number.saturating_add(1);
        self.rest = end.get(1..).unwrap_or(end);
        Some(line)
    }
}

// A text cut before the first byte that passes the test, or at its end.
pub(crate) fn split_before<F: Fn(&u8) -> bool>(text: &[u8], test: F) -> (&[u8], &[u8])
    requires { F.IsAlwaysCallable test }
    ensures { length result.0.now + length result.1.now ≡ length text.now }
{
    let end = text.iter().position(test).unwrap_or(text.len());
    text.split_at(end)
}
